// A task's runs: one more, and the oldest ended.
ghost use Rattle.std.specs.Prelude.{◌≡◌, ◌<◌};
ghost use Rattle.task_state.specs.Runs.{taken_run, without_run};
ghost use Rattle.task_state.specs.Inner.{Releasable};

use crate::State;
use crate::due::due_after;
use planning::Line;
use release_times::release_time;
use turn::turn_of;
use units::ticks::Ticks;

// The task after a release, with the run's core and deadline.
#[derive(Clone, Copy)]
pub struct Taken {
    pub state: State,
    pub core: usize,
    pub deadline: Ticks,
}

impl State {
    // One run more, from its release time on, counted in the turn cycle.
    pub fn with_run(self, line: Line, time: Ticks) -> Taken
        requires { Releasable line self time.0 }
        ensures { result ≡ taken_run line self time.0 }
    {
        let turn = turn_of(line.weight, self.place, line.shares, self.counts);
        let released = release_time(self.had, self.last, line.period, time);
        let after = due_after(line);
        let due = released.0 + after.0 as u64;
        let deadline = Ticks(due);
        let core = turn.core;
        let counts = turn.counts;
        let at = self.live as usize;
        let mut state = self;
        state.counts = counts;
        state.place = turn.place;
        state.last = released;
        state.deadlines[at] = deadline;
        state.cores[at] = core as u8;
        state.live = self.live + 1;
        state.had = 1;
        Taken {
            state,
            core,
            deadline,
        }
    }

    // Without the oldest run: the others move up.
    pub fn without_run(mut self) -> State
        requires { 0 < self.live }
        ensures { result ≡ without_run self }
    {
        self.deadlines[0] = Ticks(0);
        self.deadlines.rotate_left(1);
        self.cores[0] = 0;
        self.cores.rotate_left(1);
        self.live -= 1;
        self
    }
}
