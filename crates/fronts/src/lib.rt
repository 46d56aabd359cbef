// What an instant asks of a task: its oldest unfinished run, and when a run of it is released next.
#![tactic(auto)]

ghost use Rattle.std.specs.Prelude.{◌≡◌};
ghost use Rattle.units.specs.Units.{ticks};
ghost use Rattle.release_times.specs.Times.{released_at};
ghost use Rattle.fronts.specs.Front.{front_of, sees, ahead_of};
ghost use Rattle.fronts.specs.Inner.{Frontable};

use planning::Line;
use run_lengths::Work;
use task_state::State;
use task_state::due::due_after;
use units::limits::CORES;
use units::ticks::{Duration, Ticks};

// A task's oldest unfinished run: its core, 0 for none, its release time, its key there, its length and its number;
// beside it the task's last release time and its period.
#[derive(Clone, Copy)]
pub struct Front {
    pub core: usize,
    pub release: Ticks,
    pub key: u64,
    pub length: u64,
    pub run: u64,
    pub last: Ticks,
    pub period: u64,
}

impl Front {
    // It is on a core, and released.
    pub fn sees(self, time: Ticks) -> bool
        ensures { result ≡ sees self time.0 }
    {
        0 < self.core && self.core <= CORES && self.release.0 <= time.0
    }

    // The task's next release time ahead, where it is before another time: those ahead lie a period apart, up to the last.
    #[tactic(auto, unfolding(crate::specs::Front::ahead_of))]
    pub fn ahead(self, time: Ticks, until: Ticks) -> Ticks
        ensures { result ≡ ticks (ahead_of self time.0 until.0) }
    {
        let last = self.last.0;
        if last <= time.0 || self.period == 0 {
            return until;
        }
        let steps = (last - time.0 - 1) / self.period;
        let next = last - steps * self.period;
        Ticks(next.min(until.0))
    }
}

// A run's release time: its deadline less the time from release to deadline.
fn released(deadline: Ticks, after: Duration) -> Ticks
    ensures { result ≡ ticks (released_at after.0 deadline.0) }
{
    Ticks(deadline.0.saturating_sub(after.0 as u64))
}

// A task's front, by its line, its state and its runs' lengths.
#[tactic(auto, unfolding(crate::specs::Front::front_of))]
pub fn front_of(line: Line, state: State, work: Work) -> Front
    requires { Frontable line state work }
    ensures { result ≡ front_of line state work }
{
    let none = Front {
        core: 0,
        release: Ticks(0),
        key: 0,
        length: work.lengths[0],
        run: work.ended + 1,
        last: state.last,
        period: line.period.0 as u64,
    };
    if state.live == 0 {
        return none;
    }
    let core = state.cores[0] as usize;
    Front {
        core,
        release: released(state.deadlines[0], due_after(line)),
        key: state.key(line, core),
        ..none
    }
}
