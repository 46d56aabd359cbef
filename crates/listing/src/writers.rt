// Writers of the listing's pieces. Each stores as much as fits and answers the index after its text.
ghost use Rattle.std.specs.Prelude.{◌≡◌, ◌+◌, ◌≤◌};
ghost use Rattle.units.specs.Limits.{tasks_limit};
ghost use Rattle.units.specs.Units.{nums};
ghost use Rattle.writing.specs.Inner.{place_limit};
ghost use Rattle.writing.specs.Wrote.{Wrote};
ghost use Rattle.lateness.specs.Lateness.{lates_of};
ghost use Rattle.listing.specs.Listing.{share_text, shares_text, head_text, row_text, late_text, task_text, first_text, listing_text};

use planning::{Line, Plan};
use task_shares::rows::parts_of;
use task_shares::standing::moves_by;
use units::limits::{CORES, TASKS};
use units::share::Share;
use writing::{NEWLINE, put_byte, put_field, put_signed, put_text};

// A core's share, if it is positive.
fn put_share(buf: &mut [u8], at: usize, core: usize, share: Share) -> usize
    requires { at + 50 ≤ place_limit }
    ensures wrote { Wrote buf.old at (share_text core share.0) buf.new result }
    ensures upper_bound { result ≤ at + 50 }
{
    if share.0 == 0 {
        return at;
    }
    let next = put_field(buf, at, b" ", core as u64);
    put_field(buf, next, b":", share.0 as u64)
}

// The positive shares of a row.
fn put_shares(buf: &mut [u8], at: usize, shares: [Share; CORES]) -> usize
    requires { at + 800 ≤ place_limit }
    ensures wrote { Wrote buf.old at (shares_text 1 (nums shares)) buf.new result }
    ensures upper_bound { result ≤ at + 800 }
{
    let mut next = at;
    for (p, share) in shares.iter().enumerate() {
        next = put_share(buf, next, p + 1, *share);
    }
    next
}

// Whether a task moves, and its shares.
fn put_row(buf: &mut [u8], at: usize, shares: [Share; CORES]) -> usize
    requires { at + 806 ≤ place_limit }
    ensures wrote { Wrote buf.old at (row_text (nums shares)) buf.new result }
    ensures upper_bound { result ≤ at + 806 }
{
    let next = if moves_by(parts_of(shares)) {
        put_text(buf, at, b" moves")
    } else {
        put_text(buf, at, b" fixed")
    };
    put_shares(buf, next, shares)
}

// A task's number, cost, period and weight.
fn put_head(buf: &mut [u8], at: usize, i: usize, line: Line) -> usize
    requires { at + 107 ≤ place_limit }
    ensures wrote { Wrote buf.old at (head_text i line) buf.new result }
    ensures upper_bound { result ≤ at + 107 }
{
    let a = put_field(buf, at, b"task ", i as u64);
    let b = put_field(buf, a, b" cost ", line.cost.0 as u64);
    let c = put_field(buf, b, b" period ", line.period.0 as u64);
    put_field(buf, c, b" weight ", line.weight.0 as u64)
}

// A task's bound, and the end of its line.
fn put_late(buf: &mut [u8], at: usize, late: i64) -> usize
    requires { at + 28 ≤ place_limit }
    ensures wrote { Wrote buf.old at (late_text late) buf.new result }
    ensures upper_bound { result ≤ at + 28 }
{
    let a = put_text(buf, at, b" late ");
    let b = put_signed(buf, a, late);
    put_byte(buf, b, NEWLINE)
}

// A task's line.
fn put_task(buf: &mut [u8], at: usize, i: usize, line: Line, late: i64) -> usize
    requires { at + 1000 ≤ place_limit }
    ensures wrote { Wrote buf.old at (task_text i line late) buf.new result }
    ensures upper_bound { result ≤ at + 1000 }
{
    let a = put_head(buf, at, i, line);
    let b = put_row(buf, a, line.shares);
    put_late(buf, b, late)
}

// The first line: the cores and the common period.
fn put_first(buf: &mut [u8], cores: u32, common: u32) -> usize
    ensures wrote { Wrote buf.old 0 (first_text cores common) buf.new result }
    ensures upper_bound { result ≤ 1000 }
{
    let a = put_field(buf, 0, b"cores ", cores as u64);
    let b = put_field(buf, a, b" common ", common as u64);
    put_byte(buf, b, NEWLINE)
}

// The whole listing, with the bounds of its tasks. The loop is here: a plan that is handed on is copied.
pub(crate) fn put_plan(buf: &mut [u8], plan: Plan, lates: [i64; TASKS]) -> usize
    requires { (plan.count ≤ tasks_limit) × (lates ≡ lates_of plan) }
    ensures wrote { Wrote buf.old 0 (listing_text plan) buf.new result }
    ensures upper_bound { result ≤ 100000 }
{
    let mut next = put_first(buf, plan.cores, plan.common);
    for i in 0..plan.count {
        next = put_task(buf, next, i + 1, plan.lines[i], lates[i]);
    }
    next
}
