// Testing the arrivals of a day: a lent list of numbers, three to an arrival: its time, its task from 1 and its length.
#![tactic(auto)]

ghost use Rattle.std.specs.Prelude.{◌≡◌};
ghost use Rattle.units.specs.Refusals.{said, number_said};
ghost use Rattle.arrivals.specs.Arrivals.{arrivals_in, tests_of, arrivals_refusal};

use planning::Plan;
use units::limits::TASKS;
use units::refusal::{Reason, Refusal};

// Arrivals of a day, at most.
pub const ARRIVALS: usize = 4_096;

// The first refusal of arrival k, from 0: 25, 26 and 27, by its task's number and cost and by the time before; or 0.
pub fn arrival_tests(
    k: usize,
    count: usize,
    task: u64,
    cost: u64,
    length: u64,
    before: u64,
    time: u64,
) -> Result<(), Reason>
    ensures { number_said result ≡ tests_of k count task cost length before time }
{
    let tasks = count as u64;
    let outside = (task == 0) | (tasks < task);
    if (ARRIVALS <= k) | outside {
        return Err(Reason::Arrival);
    }
    if (length == 0) | (cost < length) {
        return Err(Reason::Length);
    }
    if time < before {
        return Err(Reason::Order);
    }
    Ok(())
}

// The first arrival that is refused, named from 1.
pub fn arrivals_refusal(plan: Plan, arrivals: &[u64]) -> Result<(), Refusal>
    ensures { said result ≡ arrivals_refusal plan arrivals.now (arrivals_in arrivals.now) }
{
    let mut before = 0;
    for k in 0..arrivals.len() / 3 {
        let time = arrivals[3 * k];
        let task = arrivals[3 * k + 1];
        let length = arrivals[3 * k + 2];
        let i = task.saturating_sub(1) as usize;
        let cost = if i < TASKS {
            plan.lines[i].cost.0 as u64
        } else {
            0
        };
        if let Err(reason) = arrival_tests(k, plan.count, task, cost, length, before, time) {
            return Err(Refusal {
                reason,
                named: k + 1,
            });
        }
        before = time;
    }
    Ok(())
}
