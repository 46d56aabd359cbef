// What the program writes for a text: the listing, or the refusal's line.
#![tactic(auto)]

ghost use Rattle.std.specs.Prelude.{◌≤◌, length};
ghost use Rattle.writing.specs.Wrote.{Wrote};
ghost use Rattle.listing.specs.Listed.{listing_limit};
ghost use Rattle.plan_answer.specs.Answer.{table_text, answer_text};

use listing::listed::list_table;
use table_text::{NUMBERS, TableRead, read_text};
use units::refusal::{Reason, Refusal};
use writing::refused::put_refusal;

// Bytes that any answer fits.
pub const ANSWER: usize = 16_384;

// A table's answer.
fn put_table(out: &mut [u8], cores: u32, table: &[u32]) -> usize
    ensures wrote { Wrote out.old 0 (table_text (length out.old) cores table.now) out.new result }
    ensures upper_bound { result ≤ listing_limit }
{
    match list_table(cores, table, out) {
        Ok(length) => length,
        Err(refusal) => put_refusal(out, 0, refusal),
    }
}

// The program's answer to a text, and its length.
pub fn answer(text: &[u8], out: &mut [u8]) -> usize
    ensures wrote { Wrote out.old 0 (answer_text (length out.old) text.now) out.new result }
    ensures upper_bound { result ≤ listing_limit }
{
    let mut table = [0; NUMBERS];
    match read_text(text, &mut table) {
        Err(line) => put_refusal(
            out,
            0,
            Refusal {
                reason: Reason::Text,
                named: line,
            },
        ),
        Ok(TableRead { cores, count }) => put_table(out, cores, &table[..count]),
    }
}
