// Look.
ghost use Rattle.std.specs.Prelude.{◌≡◌};
ghost use Rattle.core_choice.specs.declared.Choice.TheVariants.{Idle};
ghost use Rattle.core_choice.specs.Told.{told_of};
ghost use Rattle.dispatch.specs.Look.{look_of, look_or, look_told, numbers_told};

use crate::{After, Record};
use call_tests::shared_tests;
use core_choice::{Best, Choice, Told, better_task};
use units::refusal::Reason;
use units::ticks::Ticks;

impl Record {
    // The core's choice; or the refusal, and the same record.
    pub fn look(self, core: usize, time: Ticks) -> After<Choice>
        ensures { look_told result.answer result.next ≡ look_of self core time.0 }
    {
        let After { answer, next } = self.look_in_numbers(core, time);
        After {
            answer: answer.map(Told::choice),
            next,
        }
    }

    // The same in numbers.
    // One way out, and the loop here: a record that is handed on is copied.
    pub fn look_in_numbers(mut self, core: usize, time: Ticks) -> After<Told>
        ensures { numbers_told result.answer result.next ≡ look_or self core time.0 (told_of Idle) }
    {
        let sound = self.sound();
        let cores = self.plan.cores as usize;
        let answer = match shared_tests(sound, Reason::Core, cores, core, self.clock, time) {
            Err(reason) => Err(reason),
            Ok(()) => {
                // Copies: read out of the record, which is handed on, the lines cost a look a sixth more (tried).
                let lines = self.plan.lines;
                let states = self.states;
                let count = self.plan.count;
                let mut best = Best { task: 0, key: 0 };
                for i in 0..count {
                    best = better_task(best, i + 1, lines[i], states[i], core, time);
                }
                let mut chosen = Told::IDLE;
                if 0 < best.task {
                    chosen = best.told(states[best.task - 1]);
                }
                self.clock = time;
                Ok(chosen)
            }
        };
        After { answer, next: self }
    }
}
