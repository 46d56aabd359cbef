// Parts of a rehearsal's steps.
ghost use Rattle.std.specs.Prelude.{◌≡◌, ◌-◌, ◌≤◌};
ghost use Rattle.units.specs.Limits.{cores_limit, tasks_limit, clock_limit};
ghost use Rattle.units.specs.Units.{ticks};
ghost use Rattle.instants.specs.Seen.{least_left};
ghost use Rattle.rehearsal.specs.Parts.{coming_at, done_by, fresh_fronts, core_after};

use front_rows::store_front;
use fronts::{Front, front_of};
use goings::Going;
use instants::{Instant, least_left};
use planning::Plan;
use run_lengths::Work;
use task_state::State;
use units::ticks::Ticks;

// When the next arrival comes, if it comes before the stop; else the stop.
#[tactic(auto, unfolding(crate::specs::Parts::coming_at))]
pub(crate) fn coming_at(arrivals: &[u64], next: usize, stop: Ticks) -> Ticks
    ensures { result ≡ ticks (coming_at arrivals.now next stop.0) }
{
    if next < arrivals.len() / 3 {
        let time = arrivals[3 * next];
        if time < stop.0 {
            return Ticks(time);
        }
    }
    stop
}

// A core's run has had its length.
pub(crate) fn done_by(going: Going, front: Front, had: u64) -> bool
    ensures { result ≡ done_by going.task front.length had }
{
    0 < going.task && had == front.length
}

// The fronts of tasks that have had no run.
#[tactic(auto, unfolding(crate::specs::Parts::fresh_fronts, task_state::specs::State::fresh_state, run_lengths::specs::Work::fresh_work))]
pub(crate) fn fresh_fronts(plan: Plan, fronts: &mut [u64])
    requires { plan.count ≤ tasks_limit }
    ensures { fronts.new ≡ fresh_fronts fronts.old plan.lines plan.count }
{
    for i in 0..plan.count {
        let front = front_of(plan.lines[i], State::FRESH, Work::FRESH);
        store_front(fronts, i, front);
    }
}

// How many ticks a jump takes, and the next core whose run may be done then.
#[derive(Clone, Copy)]
pub(crate) struct Jump {
    pub more: u64,
    pub core: usize,
}

// From an instant on, as long as nothing happens; where no choice is done then, the cores are through.
#[tactic(auto, using(instants::proofs::Least::least_whole, instants::proofs::Least::least_part), unfolding(crate::specs::Parts::core_after))]
pub(crate) fn jump_from(instant: Instant, cores: usize, time: Ticks) -> Jump
    requires { (cores ≤ cores_limit) × (time.0 ≤ instant.next.0) × (instant.next.0 ≤ clock_limit) }
    ensures more_value { result.more ≡ least_left instant.seen (instant.next.0 - time.0) cores }
    ensures core_value { result.core ≡ core_after instant.seen (instant.next.0 - time.0) cores }
{
    let most = instant.next.0 - time.0;
    let least = least_left(instant.seen, cores, most + 1);
    if most < least {
        return Jump {
            more: most,
            core: cores,
        };
    }
    Jump {
        more: least,
        core: 0,
    }
}
