// What a task's own state is tested for.
ghost use Rattle.std.specs.Prelude.{◌≡◌, ◌≤◌};
ghost use Rattle.units.specs.Limits.{clock_limit};
ghost use Rattle.units.specs.Refusals.{number_said};
ghost use Rattle.task_state.specs.Tests.{release_tests, finish_tests};

use crate::State;
use crate::due::due_after;
use call_tests::{finish_tests, release_tests};
use planning::Line;
use release_times::{held, release_time};
use units::refusal::Reason;
use units::ticks::Ticks;

impl State {
    // Those of a release: 12 for its release time, then 10.
    pub fn release_tests(self, line: Line, time: Ticks) -> Result<(), Reason>
        requires { self.last.0 ≤ clock_limit }
        ensures { number_said result ≡ release_tests line self time.0 }
    {
        let released = release_time(self.had, self.last, line.period, time);
        release_tests(released, self.live as usize)
    }

    // That of a finish: 11.
    pub fn finish_tests(self, line: Line, time: Ticks) -> Result<(), Reason>
        requires { time.0 ≤ clock_limit }
        ensures { number_said result ≡ finish_tests line self time.0 }
    {
        let early = held(self.deadlines[0], due_after(line), time);
        finish_tests(self.live as usize, early)
    }
}
