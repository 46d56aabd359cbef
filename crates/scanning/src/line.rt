// Reading a line.
ghost use Rattle.std.specs.Prelude.{◌≡◌, ◌<◌, get_or};
ghost use Rattle.writing.specs.Ascii.{newline};
ghost use Rattle.scanning.specs.Inner.{Bound};
ghost use Rattle.scanning.specs.Line.{field_at, second_after, pair_by, pair_at};

use crate::number::read_number;
use writing::{BLANK, NEWLINE};

// The byte at a place, and 0 past the end.
fn byte_at(text: &[u8], at: usize) -> u8
    ensures { result ≡ get_or text.now at 0 }
{
    text.get(at).copied().unwrap_or(0)
}

// The number at a place that a byte follows, and the place after that byte.
pub fn read_field(text: &[u8], at: usize, bound: u64, end: u8) -> Option<(u64, usize)>
    requires { Bound bound × (0 < end) }
    ensures { result ≡ field_at bound text.now end at }
{
    let (v, a) = read_number(text, at, bound)?;
    if byte_at(text, a) == end {
        Some((v, a + 1))
    } else {
        None
    }
}

// The two numbers at a place with one blank between, to the end of their line, and the place after it.
pub fn read_pair(text: &[u8], at: usize, bound: u64) -> Option<(u64, u64, usize)>
    requires { Bound bound }
    ensures { result ≡ pair_at bound text.now at }
{
    read_pair_by(text, at, bound, BLANK)
}

// The two numbers at a place with a byte between, to the end of their line, and the place after it.
pub fn read_pair_by(text: &[u8], at: usize, bound: u64, between: u8) -> Option<(u64, u64, usize)>
    requires { Bound bound × (0 < between) }
    ensures { result ≡ pair_by bound between text.now at }
{
    let (x, second) = read_field(text, at, bound, between)?;
    let (y, next) = read_field(text, second, bound, NEWLINE)?;
    Some((x, y, next))
}
