// Reading the stop's line and an arrival's.
ghost use Rattle.std.specs.Prelude.{◌≡◌, ◌<◌, ◌≤◌, length};
ghost use Rattle.day_text.specs.Line.{stop_line, stop_here, stop_place, arrival_line};

use line_place::line_starts;
use scanning::line::{read_field, read_pair};
use scanning::word::read_word;
use writing::{BLANK, NEWLINE};

// 10^15, which each number is below.
const BOUND: u64 = 1_000_000_000_000_000;

// The stop at a place, and the place after its line.
pub(crate) fn read_stop(text: &[u8], at: usize) -> Option<(u64, usize)>
    ensures { result ≡ stop_line text.now at }
{
    let next = read_word(text, at, b"rehearse ")?;
    read_field(text, next, BOUND, NEWLINE)
}

// Whether a stop's line starts at a place.
fn stop_here(text: &[u8], at: usize) -> bool
    requires { at < length text.now }
    ensures { result ≡ stop_here text.now at }
{
    line_starts(text, at) && read_stop(text, at).is_some()
}

// Where the first stop's line stands, and the text's end if there is none.
pub(crate) fn stop_place(text: &[u8]) -> usize
    ensures value { result ≡ stop_place text.now }
    ensures upper_bound { result ≤ length text.now }
{
    (0..text.len())
        .find(|at| stop_here(text, *at))
        .unwrap_or(text.len())
}

// The arrival's line at a place: its time, task and length, and the place after it.
pub(crate) fn read_arrival(text: &[u8], at: usize) -> Option<(u64, u64, u64, usize)>
    ensures { result ≡ arrival_line text.now at }
{
    let (time, rest) = read_field(text, at, BOUND, BLANK)?;
    let (task, length, next) = read_pair(text, rest, BOUND)?;
    Some((time, task, length, next))
}
