// Release.
ghost use Rattle.std.specs.Prelude.{◌≡◌};
ghost use Rattle.dispatch.specs.Release.{release_told, release_of};

use crate::{After, Record};
use call_tests::shared_tests;
use stored_runs::Run;
use units::refusal::Reason;
use units::ticks::Ticks;

impl Record {
    // The run's core and deadline, and the record after it; or the refusal, and the same record.
    // One way out: each would copy the record.
    pub fn release(mut self, task: usize, time: Ticks) -> After<Run>
        ensures { release_told result.answer result.next ≡ release_of self task time.0 }
    {
        let sound = self.sound();
        let answer = match shared_tests(
            sound,
            Reason::Task,
            self.plan.count,
            task,
            self.clock,
            time,
        ) {
            Err(reason) => Err(reason),
            Ok(()) => {
                let i = task - 1;
                let line = self.plan.lines[i];
                let state = self.states[i];
                match state.release_tests(line, time) {
                    Err(reason) => Err(reason),
                    Ok(()) => {
                        let taken = state.with_run(line, time);
                        self.states[i] = taken.state;
                        self.clock = time;
                        Ok(Run {
                            core: taken.core,
                            deadline: taken.deadline,
                        })
                    }
                }
            }
        };
        After { answer, next: self }
    }
}
