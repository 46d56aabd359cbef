// Planning for the dispatcher: a fresh record.
ghost use Rattle.std.specs.Prelude.{◌≡◌};
ghost use Rattle.dispatch.specs.Record.{record_of, fresh_told, fresh_of};

use crate::Record;
use planning::{Plan, plan_of};
use task_state::State;
use units::limits::TASKS;
use units::refusal::Refusal;
use units::ticks::Ticks;

impl Record {
    // The record of a plan, with clock 0 and no runs.
    pub fn of(plan: Plan) -> Record
        ensures { result ≡ record_of plan }
    {
        Record {
            plan,
            clock: Ticks(0),
            states: [State::FRESH; TASKS],
        }
    }

    // The plan of a table on a number of cores, as a fresh record; or the first refusal that applies.
    pub fn fresh(cores: u32, table: &[u32]) -> Result<Record, Refusal>
        ensures { fresh_told result ≡ fresh_of cores table.now }
    {
        Ok(Record::of(plan_of(cores, table)?))
    }
}
