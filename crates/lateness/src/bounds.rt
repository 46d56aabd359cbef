// The bounds, by rising first core.
ghost use Rattle.std.specs.Prelude.{ℕ, ◌+◌, ◌≤◌, ◌<◌, ◌≡◌, length, get_or};
ghost use Rattle.units.specs.Limits.{cores_limit, period_limit};
ghost use Rattle.lists.specs.Lists.{most};
ghost use Rattle.planning.specs.Kept.{PlanKept};
ghost use Rattle.lateness.specs.Lateness.{reaches as reaches_of, fixed_late, lates_of};
ghost use Rattle.lateness.specs.Inner.{MoversOf, push_by, reach_by, pair_late, late_at, EachLate, MoverInRange, PairInRange, BoundsReady, reach_limit, late_limit};

use crate::movers::{Mover, Movers, mover_on, with_line};
use arith::ceiling::ceil_div;
use planning::Plan;
use task_shares::rows::{first_core, parts_of};
use task_shares::standing::moves_by;
use units::limits::{CORES, TASKS};
use units::ticks::Duration;

// What is noted of a task: whether it moves, its period and its first core.
#[derive(Clone, Copy)]
struct Note {
    moves: bool,
    period: Duration,
    first: usize,
}

impl Note {
    const NONE: Note = Note {
        moves: false,
        period: Duration(0),
        first: CORES,
    };
}

// What stands at a core, 0 where there is no such core.
fn at(numbers: &[u64; CORES], p: usize) -> u64
    requires { length numbers.now ≡ cores_limit }
    ensures { result ≡ get_or numbers.now p 0 }
{
    numbers.get(p).copied().unwrap_or(0)
}

// s × (D + 2T) of a mover, from the reaches by first core.
fn push(reaches: &[u64; CORES], mover: Mover) -> u64
    requires { (length reaches.now ≡ cores_limit) × MoverInRange reaches.now mover }
    ensures { result ≡ push_by reaches.now mover }
{
    mover.share.0 as u64 * (at(reaches, mover.first) + mover.period.0 as u64)
}

// The reach of a core's lower mover, (s × (D + 2T) + L × (2C' + C)) / (L − s) rounded up, with the upper mover's s, D, T and C'.
fn reach_on(common: u32, reaches: &[u64; CORES], upper: Mover, lower: Mover) -> u64
    requires { (length reaches.now ≡ cores_limit) × PairInRange common reaches.now upper lower }
    ensures { result ≡ reach_by common reaches.now upper lower }
{
    let l = common as u64;
    let own = l * (2 * upper.cost.0 as u64 + lower.cost.0 as u64);
    ceil_div(push(reaches, upper) + own, l - upper.share.0 as u64)
}

// The bound of a core's fixed tasks.
fn fixed_on(common: u32, reaches: &[u64; CORES], upper: Mover, lower: Mover) -> u64
    requires { (length reaches.now ≡ cores_limit) × PairInRange common reaches.now upper lower }
    ensures { result ≡ pair_late common reaches.now upper lower }
{
    let l = common as u64;
    let own = l * (2 * upper.cost.0 as u64 + 2 * lower.cost.0 as u64);
    ceil_div(
        push(reaches, upper) + push(reaches, lower) + own,
        l - upper.share.0 as u64 - lower.share.0 as u64,
    )
}

// The reach of each of a plan's movers by its first core.
fn reaches_of(plan: Plan, movers: Movers) -> [u64; CORES]
    requires { (PlanKept plan) × (MoversOf plan.lines movers) }
    ensures { result ≡ reaches_of plan.common plan.lines cores_limit }
{
    let mut reaches = [0u64; CORES];
    for p in 0..CORES {
        reaches[p] = reach_on(plan.common, &reaches, movers.upper[p], movers.lower[p]);
    }
    reaches
}

// The bound of each core's fixed tasks, from the reaches of the plan's movers.
fn fixed_of(plan: Plan, movers: Movers, reaches: &[u64; CORES]) -> [u64; CORES]
    requires { (PlanKept plan) × (MoversOf plan.lines movers) × (most reaches.now ≤ reach_limit) × (length reaches.now ≡ cores_limit) }
    ensures { (p : ℕ) → get_or result p 0 ≡ fixed_late plan.common reaches.now plan.lines p }
{
    let mut bounds = [0u64; CORES];
    for p in 0..CORES {
        bounds[p] = fixed_on(plan.common, reaches, movers.upper[p], movers.lower[p]);
    }
    bounds
}

// A task's bound: a mover's reach less its period, or the bound of its core's fixed tasks.
fn late_at(note: Note, reaches: &[u64; CORES], fixed: &[u64; CORES]) -> i64
    requires reaches_len { (length reaches.now ≡ cores_limit) × (length fixed.now ≡ cores_limit) }
    requires period_le_period_limit { note.period.0 ≤ period_limit }
    requires at_le_late_limit { (get_or reaches.now note.first 0 ≤ late_limit) × (get_or fixed.now note.first 0 ≤ late_limit) }
    ensures { result ≡ late_at reaches.now fixed.now note }
{
    if note.moves {
        at(reaches, note.first) as i64 - note.period.0 as i64
    } else {
        at(fixed, note.first) as i64
    }
}

// The bounds of tasks, from what is noted of each.
fn lates_of(notes: &[Note; TASKS], reaches: &[u64; CORES], fixed: &[u64; CORES]) -> [i64; TASKS]
    requires { BoundsReady notes.now reaches.now fixed.now }
    ensures { EachLate reaches.now fixed.now notes.now result }
{
    let mut lates = [0i64; TASKS];
    for i in 0..TASKS {
        lates[i] = late_at(notes[i], reaches, fixed);
    }
    lates
}

// The bound of each task, in ticks. The tasks' lines are read once; what follows works on numbers, and past the tasks it finds 0.
pub fn bounds_of(plan: Plan) -> [i64; TASKS]
    requires { PlanKept plan }
    ensures { result ≡ lates_of plan }
{
    let mut upper = [Mover::NONE; CORES];
    let mut lower = [Mover::NONE; CORES];
    let mut notes = [Note::NONE; TASKS];
    for i in (0..plan.count).rev() {
        let line = plan.lines[i];
        let shares = line.shares;
        let moves = moves_by(parts_of(shares));
        let first = first_core(shares);
        notes[i] = Note {
            moves,
            period: line.period,
            first,
        };
        if moves {
            lower[first] = mover_on(shares[first], line, first);
            let above = with_line(upper, line, first);
            upper = above;
        }
    }
    let movers = Movers { upper, lower };
    let reaches = reaches_of(plan, movers);
    let fixed = fixed_of(plan, movers, &reaches);
    lates_of(&notes, &reaches, &fixed)
}
