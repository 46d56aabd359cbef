// Finish.
ghost use Rattle.std.specs.Prelude.{◌≡◌};
ghost use Rattle.dispatch.specs.Finish.{finish_told, finish_of};

use crate::{After, Record};
use call_tests::shared_tests;
use units::refusal::Reason;
use units::ticks::Ticks;

impl Record {
    // The time less the deadline of the task's oldest unfinished run, which is ended; or the refusal, and the same record.
    // One way out: each would copy the record.
    pub fn finish(mut self, task: usize, time: Ticks) -> After<i64>
        ensures { finish_told result.answer result.next ≡ finish_of self task time.0 }
    {
        let sound = self.sound();
        let answer = match shared_tests(
            sound,
            Reason::Task,
            self.plan.count,
            task,
            self.clock,
            time,
        ) {
            Err(reason) => Err(reason),
            Ok(()) => {
                let i = task - 1;
                let line = self.plan.lines[i];
                let state = self.states[i];
                match state.finish_tests(line, time) {
                    Err(reason) => Err(reason),
                    Ok(()) => {
                        self.states[i] = state.without_run();
                        self.clock = time;
                        Ok(time.0 as i64 - state.deadlines[0].0 as i64)
                    }
                }
            }
        };
        After { answer, next: self }
    }
}
