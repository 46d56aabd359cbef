// What the player writes for an input.
ghost use Rattle.std.specs.Prelude.{◌≤◌, length};
ghost use Rattle.units.specs.Refusals.{refusal, text_no};
ghost use Rattle.writing.specs.Wrote.{Wrote};
ghost use Rattle.writing.specs.Refused.{refusal_text};
ghost use Rattle.calls_text.specs.Input.{input_limit, plays};
ghost use Rattle.player.specs.Played.{answers_limit, given_text, table_played, play_text};

use crate::played::play_calls;
use calls_text::INPUT;
use calls_text::calls::{calls_place, first_bad};
use dispatch::Record;
use table_text::{NUMBERS, TableRead, read_text};
use units::refusal::{Reason, Refusal};
use writing::refused::put_refusal;

// Bytes of the answers to an input, at most.
pub const ANSWERS: usize = 460_000;

// Refusal 16, which names a line.
fn put_unreadable(out: &mut [u8], line: usize) -> usize
    ensures wrote { Wrote out.old 0 (refusal_text (refusal text_no line)) out.new result }
    ensures upper_bound { result ≤ 60 }
{
    put_refusal(
        out,
        0,
        Refusal {
            reason: Reason::Text,
            named: line,
        },
    )
}

// The calls after a table that can be read, whose text ends at a place.
fn play_table(text: &[u8], place: usize, cores: u32, table: &[u32], out: &mut [u8]) -> usize
    requires { (length text.now ≤ input_limit) × (length table.now ≤ 2048) }
    ensures wrote { Wrote out.old 0 (table_played text.now place cores table.now) out.new result }
    ensures upper_bound { result ≤ answers_limit }
{
    let tasks = table.len() / 2;
    if text.len() <= place {
        return put_unreadable(out, 2 + tasks);
    }
    let from = place + 6;
    let bad = first_bad(text, from, 3 + tasks);
    if bad != 0 {
        return put_unreadable(out, bad);
    }
    play_taken(text, from, cores, table, out)
}

// The calls from a place on, if the table is taken.
fn play_taken(text: &[u8], from: usize, cores: u32, table: &[u32], out: &mut [u8]) -> usize
    requires { length text.now ≤ input_limit }
    ensures wrote { Wrote out.old 0 (given_text text.now (plays cores table.now from)) out.new result }
    ensures upper_bound { result ≤ answers_limit }
{
    match Record::fresh(cores, table) {
        Ok(first) => play_calls(text, from, first, out),
        Err(refusal) => put_refusal(out, 0, refusal),
    }
}

// The answers to an input's calls, or its refusal, and their length.
pub fn play(text: &[u8], out: &mut [u8]) -> usize
    ensures wrote { Wrote out.old 0 (play_text text.now) out.new result }
    ensures upper_bound { result ≤ answers_limit }
{
    if INPUT < text.len() {
        return put_unreadable(out, 0);
    }
    let place = calls_place(text);
    let mut table = [0u32; NUMBERS];
    match read_text(&text[0..place], &mut table) {
        Err(line) => put_unreadable(out, line),
        Ok(TableRead { cores, count }) => play_table(text, place, cores, &table[..count], out),
    }
}
