// The program: a table's text, a stop and arrivals on standard input, the day's lines or the refusal's on standard output.
#![tactic(auto)]

ghost use Rattle.std.specs.Prelude.{◌≡◌, ◌<◌, length};
ghost use Rattle.rehearsal_answer.specs.Inner.{piece_length};

use day_text::INPUT;
use rehearsal_answer::answer;
use std::io::{Eprint, Print};
use streams::{read_input, write_output};

// Bytes of a piece, at most.
const PIECE: usize = 500_000;

// Zeros for a piece; its contract gives the length alone, so that no proof spells the zeros out.
fn room() -> [u8; PIECE]
    ensures { 500000 ≡ length result }
{
    [0; PIECE]
}

// What is left, as far as there is room.
fn piece_length(left: usize, room: usize) -> usize
    ensures { result ≡ piece_length left room }
{
    left.min(room)
}

// The answer to an input, piece after piece.
fn write_pieces<R: Print + Eprint>(rt: &R, text: &[u8], out: &mut [u8])
    requires { 0 < length out.old }
{
    let n = answer(text, 0, out);
    let first = piece_length(n, out.len());
    write_output(rt, &out[..first]);
    let mut skip = first;
    while skip < n {
        answer(text, skip, out);
        let more = piece_length(n - skip, out.len());
        write_output(rt, &out[..more]);
        skip += more;
    }
}

fn main(rt: HostRuntime) {
    let mut text = [0; INPUT];
    if let Some(n) = read_input(&rt, &mut text) {
        write_pieces(&rt, &text[..n], &mut room());
    }
}
