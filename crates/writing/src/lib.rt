// Writers of text into a lent buffer. Each stores as much as fits and answers the index after its text.
#![tactic(auto)]

ghost use Rattle.std.specs.Prelude.{◌≡◌, [], ◌∷◌, ◌++◌, ◌+◌, ◌≤◌, length};
ghost use Rattle.writing.specs.Inner.{place_limit};
ghost use Rattle.writing.specs.Decimal.{decimal_of, signed_of};
ghost use Rattle.writing.specs.Wrote.{Wrote};

use crate::digits::put_short;

mod digits;
pub mod refused;

// The byte between two numbers.
pub const BLANK: u8 = b' ';
// The byte that ends a line.
pub const NEWLINE: u8 = b'\n';

// One byte.
pub fn put_byte(buf: &mut [u8], at: usize, b: u8) -> usize
    requires { at + 1 ≤ place_limit }
    ensures { Wrote buf.old at (b ∷ []) buf.new result }
{
    let next = at + 1;
    if at < buf.len() {
        buf[at] = b;
    }
    next
}

// A text.
pub fn put_text(buf: &mut [u8], at: usize, text: &[u8]) -> usize
    requires { at + length text.now ≤ place_limit }
    ensures { Wrote buf.old at text.now buf.new result }
{
    let end = at + text.len();
    if end <= buf.len() {
        buf[at..end].copy_from_slice(text);
        return end;
    }
    let mut next = at;
    for b in text {
        next = put_byte(buf, next, *b);
    }
    next
}

// A number in decimal, cut where the buffer ends.
fn put_cut(buf: &mut [u8], at: usize, n: u64) -> usize
    requires { at + 20 ≤ place_limit }
    ensures wrote { Wrote buf.old at (decimal_of n) buf.new result }
    ensures upper_bound { result ≤ at + 20 }
{
    if n < 10 {
        put_byte(buf, at, b'0' + n as u8)
    } else {
        let next = put_cut(buf, at, n / 10);
        put_byte(buf, next, b'0' + (n % 10) as u8)
    }
}

// A number in decimal: two digits at a time where eight have room, digit by digit else.
pub fn put_number(buf: &mut [u8], at: usize, n: u64) -> usize
    requires { at + 20 ≤ place_limit }
    ensures wrote { Wrote buf.old at (decimal_of n) buf.new result }
    ensures upper_bound { result ≤ at + 20 }
{
    if n < 100_000_000 && at + 8 <= buf.len() {
        return put_short(buf, at, n as u32);
    }
    put_cut(buf, at, n)
}

// A label and a number after it.
pub fn put_field(buf: &mut [u8], at: usize, label: &[u8], n: u64) -> usize
    requires { at + length label.now + 20 ≤ place_limit }
    ensures wrote { Wrote buf.old at (label.now ++ decimal_of n) buf.new result }
    ensures upper_bound { result ≤ at + length label.now + 20 }
{
    let next = put_text(buf, at, label);
    put_number(buf, next, n)
}

// A signed number in decimal.
pub fn put_signed(buf: &mut [u8], at: usize, z: i64) -> usize
    requires { at + 21 ≤ place_limit }
    ensures wrote { Wrote buf.old at (signed_of z) buf.new result }
    ensures upper_bound { result ≤ at + 21 }
{
    let n = z.unsigned_abs();
    if z < 0 {
        let next = put_byte(buf, at, b'-');
        put_number(buf, next, n)
    } else {
        put_number(buf, at, n)
    }
}
