// A refusal's line.
ghost use Rattle.std.specs.Prelude.{◌+◌, ◌≤◌};
ghost use Rattle.writing.specs.Inner.{place_limit};
ghost use Rattle.writing.specs.Wrote.{Wrote};
ghost use Rattle.units.specs.Refusals.{refusal, told};
ghost use Rattle.writing.specs.Refused.{named_text, refusal_text};

use crate::{NEWLINE, put_byte, put_field};
use units::refusal::{Reason, Refusal};

// What a refusal names, by its number: the line of an unreadable text, else an arrival or a task where there is one.
fn put_named(buf: &mut [u8], at: usize, no: u32, named: usize) -> usize
    requires { at + 29 ≤ place_limit }
    ensures wrote { Wrote buf.old at (named_text (refusal no named)) buf.new result }
    ensures upper_bound { result ≤ at + 29 }
{
    let named = named as u64;
    if no == Reason::Text.number() {
        return put_field(buf, at, b" line ", named);
    }
    if named == 0 {
        return at;
    }
    if (Reason::Arrival.number() <= no) & (no <= Reason::Order.number()) {
        return put_field(buf, at, b" arrival ", named);
    }
    put_field(buf, at, b" task ", named)
}

// The line of a refusal with any number.
pub fn put_numbered(buf: &mut [u8], at: usize, no: u32, named: usize) -> usize
    requires { at + 60 ≤ place_limit }
    ensures wrote { Wrote buf.old at (refusal_text (refusal no named)) buf.new result }
    ensures upper_bound { result ≤ at + 60 }
{
    let a = put_field(buf, at, b"refused ", no as u64);
    let b = put_named(buf, a, no, named);
    put_byte(buf, b, NEWLINE)
}

// The line, for every program.
pub fn put_refusal(buf: &mut [u8], at: usize, refusal: Refusal) -> usize
    requires { at + 60 ≤ place_limit }
    ensures wrote { Wrote buf.old at (refusal_text (told refusal)) buf.new result }
    ensures upper_bound { result ≤ at + 60 }
{
    put_numbered(buf, at, refusal.reason.number(), refusal.named)
}
