// The calls for a listing: of a record, and of a table.
ghost use Rattle.std.specs.Prelude.{true, ◌≡◌, length};
ghost use Rattle.soundness.specs.Plan.{plan_sound};
ghost use Rattle.listing.specs.Listed.{listing_told, plan_listed, plan_after, table_listed, table_after, listed_of, buffer_after};

use crate::writers::put_plan;
use dispatch::Record;
use lateness::bounds::bounds_of;
use planning::{Plan, plan_of};
use units::refusal::{Reason, Refusal};

// So many bytes hold the listing of any sound plan.
const LISTING: usize = 15_960;

// A sound plan's listing. Where the buffer may be too short, a first run on one of one byte finds the length.
pub fn list_plan(plan: Plan, buf: &mut [u8]) -> Result<usize, Refusal>
    requires { plan_sound plan ≡ true }
    ensures value { listing_told result ≡ plan_listed plan (length buf.old) }
    ensures buf_after { buf.new ≡ plan_after plan buf.old }
{
    let lates = bounds_of(plan);
    if LISTING <= buf.len() {
        return Ok(put_plan(buf, plan, lates));
    }
    let mut one = [0u8; 1];
    let need = put_plan(&mut one, plan, lates);
    if buf.len() < need {
        return Err(Refusal::from(Reason::Buffer));
    }
    Ok(put_plan(buf, plan, lates))
}

// The listing of a record's plan in a lent buffer, or refusal 15 or 14 and no byte changed.
pub fn list(from: Record, buf: &mut [u8]) -> Result<usize, Refusal>
    ensures value { listing_told result ≡ listed_of from (length buf.old) }
    ensures buf_after { buf.new ≡ buffer_after from buf.old }
{
    if !from.sound() {
        return Err(Refusal::from(Reason::Unsound));
    }
    list_plan(from.plan, buf)
}

// The listing of a table's plan, for the program and the host; or planning's refusal or 14, and no byte changed.
pub fn list_table(cores: u32, table: &[u32], buf: &mut [u8]) -> Result<usize, Refusal>
    ensures value { listing_told result ≡ table_listed cores table.now (length buf.old) }
    ensures buf_after { buf.new ≡ table_after cores table.now buf.old }
{
    list_plan(plan_of(cores, table)?, buf)
}
