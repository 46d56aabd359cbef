// A call and its answer as values, for who reads calls from a text.
ghost use Rattle.std.specs.Prelude.{◌≡◌};
ghost use Rattle.dispatch.specs.declared.call.Answer.TheVariants.{Released};
ghost use Rattle.dispatch.specs.Calls.{call_told, answered_of};

use crate::{After, Record};
use core_choice::Choice;
use units::ticks::Ticks;

// A release of a task, a finish of a task, a look at a core, each at a time.
#[derive(Clone, Copy)]
pub enum Call {
    Release(usize, Ticks),
    Finish(usize, Ticks),
    Look(usize, Ticks),
}

// A run's core and deadline; the time less the deadline; a core's choice.
#[derive(Clone, Copy)]
pub enum Answer {
    Released(usize, Ticks),
    Finished(i64),
    Looked(Choice),
}

impl Record {
    // The call's answer, and the record after it; or the refusal, and the same record.
    pub fn call(self, call: Call) -> After<Answer>
        ensures { record { answer = call_told result.answer; next = result.next } ≡ answered_of self call }
    {
        match call {
            Call::Release(task, time) => {
                let After { answer, next } = self.release(task, time);
                let answer = answer.map(
                    |run| -> Answer
                        ensures { result ≡ Released run.core run.deadline }
                    { Answer::Released(run.core, run.deadline) },
                );
                After { answer, next }
            }
            Call::Finish(task, time) => {
                let After { answer, next } = self.finish(task, time);
                let answer = answer.map(Answer::Finished);
                After { answer, next }
            }
            Call::Look(core, time) => {
                let After { answer, next } = self.look(core, time);
                let answer = answer.map(Answer::Looked);
                After { answer, next }
            }
        }
    }
}
