// What the program `office` writes: a table's text and names in, the sheet or the refusal's line out.
#![tactic(auto)]

ghost use Rattle.std.specs.Prelude.{◌≤◌, length};
ghost use Rattle.units.specs.Refusals.{number, refusal};
ghost use Rattle.writing.specs.Wrote.{Wrote};
ghost use Rattle.writing.specs.Refused.{refusal_text};
ghost use Rattle.office_answer.specs.Office.{written_text, after_word, office_text};

use line_place::line_place;
use scanning::line::read_field;
use sheet_writing::write_sheet;
use table_text::{NUMBERS, TableRead, read_text};
use tick_length::tick_in;
use units::refusal::{Reason, Refusal};
use writing::NEWLINE;
use writing::refused::put_refusal;

// Bytes that any answer fits.
pub const ANSWER: usize = 4_096;
// 10^15, which the tick length is below.
const BOUND: u64 = 1_000_000_000_000_000;

// The line of a refusal by its reason and the line of the text that it names.
fn put_refused(out: &mut [u8], reason: Reason, line: usize) -> usize
    ensures wrote { Wrote out.old 0 (refusal_text (refusal (number reason) line)) out.new result }
    ensures upper_bound { result ≤ 60 }
{
    put_refusal(
        out,
        0,
        Refusal {
            reason,
            named: line,
        },
    )
}

// A table and its names: the sheet, or the refusal's line.
fn put_written(out: &mut [u8], cores: u32, table: &[u32], names: &[u8], tick: u32) -> usize
    ensures wrote { Wrote out.old 0 (written_text (length out.old) cores table.now names.now tick)
        out.new result }
    ensures upper_bound { result ≤ 4096 }
{
    match write_sheet(cores, table, names, tick, out) {
        Ok(length) => length,
        Err(refusal) => put_refusal(out, 0, refusal),
    }
}

// What follows the word `names ` at a place: the tick length, and the names.
fn put_named(out: &mut [u8], cores: u32, table: &[u32], text: &[u8], at: usize) -> usize
    ensures wrote { Wrote out.old 0 (after_word (length out.old) cores table.now text.now at)
        out.new result }
    ensures upper_bound { result ≤ 4096 }
{
    match read_field(text, at, BOUND, NEWLINE) {
        Some((tick, names)) if tick_in(tick) => put_written(
            out,
            cores,
            table,
            &text[names..],
            tick as u32,
        ),
        _ => put_refused(out, Reason::Tick, 0),
    }
}

// The program's answer to an input, and its length.
pub fn answer(text: &[u8], out: &mut [u8]) -> usize
    ensures wrote { Wrote out.old 0 (office_text (length out.old) text.now) out.new result }
    ensures upper_bound { result ≤ 4096 }
{
    let place = line_place(text, b"names ");
    let mut table = [0u32; NUMBERS];
    match read_text(&text[..place], &mut table) {
        Err(line) => put_refused(out, Reason::Text, line),
        Ok(TableRead { cores, count }) if place < text.len() => put_named(
            out,
            cores,
            &table[..count],
            text,
            place + 6,
        ),
        Ok(TableRead { count, .. }) => put_refused(out, Reason::Text, 2 + count / 2),
    }
}
