// Refusal 15: whether a record is sound, for any numbers whatever.
ghost use Rattle.std.specs.Prelude.{◌≡◌};
ghost use Rattle.units.specs.Limits.{tasks_limit};
ghost use Rattle.lists.specs.Below.{all_below};
ghost use Rattle.dispatch.specs.Sound.{state_ok, sound_of};

use crate::Record;
use planning::Plan;
use soundness::plan::plan_sound;
use state_rules::state_ok;
use task_state::State;
use units::limits::{CLOCK, TASKS};

// Each task in use is sound, the others are empty.
fn states_sound(plan: Plan, states: [State; TASKS]) -> bool
    ensures { result ≡ all_below tasks_limit (state_ok plan states) }
{
    for i in 0..TASKS {
        if !state_ok(states[i], i < plan.count, plan.lines[i]) {
            return false;
        }
    }
    true
}

impl Record {
    // A sound record. The states come first: what is copied before the longer test need not be copied twice.
    pub fn sound(self) -> bool
        ensures { result ≡ sound_of self }
    {
        if CLOCK < self.clock.0 {
            return false;
        }
        if !states_sound(self.plan, self.states) {
            return false;
        }
        plan_sound(self.plan)
    }
}
