// What the box's host calls; `host_c` hands each call to C. Nothing is kept between calls.
#![tactic(auto)]

ghost use Rattle.std.specs.Prelude.{◌≡◌, ◌<◌, ◌^◌, length};
ghost use Rattle.listing.specs.Listed.{listing_told};
ghost use Rattle.host.specs.Host.{admit_of, negative as negative_of, answered, host_listed, host_after};

use crate::bytes::table_of;
use admission::admit::admit;
use listing::listed::list_table;
use units::refusal::Refusal;

mod bytes;
pub mod dispatcher;

// A refusal number made negative.
fn negative(number: u32) -> i64
    ensures { result ≡ negative_of number }
{
    -i64::from(number)
}

// A listing's length, or the refusal number made negative.
fn answer_of(listed: Result<usize, Refusal>) -> i64
    requires { (listing_told listed).length < 2 ^ 63 }
    ensures { result ≡ answered (listing_told listed) }
{
    match listed {
        Ok(length) => length as i64,
        Err(refusal) => negative(refusal.reason.number()),
    }
}

// The admission number of a byte table: 0 or a refusal.
#[tactic(auto, using(crate::proofs::Held::part_within))]
pub fn yagomila_admit(cores: u32, table: &[u8]) -> u32
    ensures { result ≡ admit_of cores table.now }
{
    let held = table_of(table);
    match admit(cores, &held.numbers[..held.count]) {
        Ok(_) => 0,
        Err(refusal) => refusal.reason.number(),
    }
}

// The listing's length, or the refusal number made negative; on a refusal no byte changes.
#[tactic(auto, using(crate::proofs::Held::part_within))]
pub fn yagomila_listing(cores: u32, table: &[u8], buf: &mut [u8]) -> i64
    ensures value { result ≡ host_listed cores table.now (length buf.old) }
    ensures buf_after { buf.new ≡ host_after cores table.now buf.old }
{
    let held = table_of(table);
    answer_of(list_table(cores, &held.numbers[..held.count], buf))
}
