// Where the calls stand in an input, and whether each can be read.
ghost use Rattle.std.specs.Prelude.{◌≡◌, ◌≤◌, length};
ghost use Rattle.calls_text.specs.Input.{calls_place, bad_call};

use crate::line::read_call;
use line_place::line_place;
use scanning::lines::first_unreadable;

// Where the first line `calls` stands, and the text's end if there is none.
pub fn calls_place(text: &[u8]) -> usize
    ensures value { result ≡ calls_place text.now }
    ensures upper_bound { result ≤ length text.now }
{
    line_place(text, b"calls\n")
}

// The first unreadable one of the calls from a place on, the line there given, and 0 if there is none.
pub fn first_bad(text: &[u8], from: usize, start: usize) -> usize
    requires { start ≤ 1000000 }
    ensures { result ≡ bad_call text.now start from }
{
    // a line or 0: what this function's contract says may not change
    first_unreadable(from, text.len(), start, |at| Some(read_call(text, at)?.1)).unwrap_or(0)
}
