// Whether a table is taken.
ghost use Rattle.std.specs.Prelude.{◌≡◌};
ghost use Rattle.admission.specs.Refusals.{input_test};
ghost use Rattle.admission.specs.Admission.{admission_told, admission_of};

use crate::refusals::input_test;
use crate::weights::{Weighed, weigh};
use arith::period::common_period;
use units::limits::TASKS;
use units::refusal::{Reason, Refusal};
use units::share::Share;

// The common period and each task's weight.
#[derive(Clone, Copy)]
pub struct Admitted {
    pub common: u32,
    pub weights: [Share; TASKS],
}

// Tests 5 and 6, of a table that has passed the others.
fn admit_tasks(cores: u32, table: &[u32]) -> Result<Admitted, Refusal>
    requires { (input_test cores table.now).no ≡ 0 }
    ensures { admission_told result ≡ admission_of cores table.now }
{
    let common = match common_period(table) {
        Ok(common) => common,
        Err(named) => {
            return Err(Refusal {
                reason: Reason::Period,
                named,
            });
        }
    };
    let Weighed { weights, sum } = weigh(table, common);
    if cores * common < sum.0 {
        return Err(Refusal::from(Reason::Weights));
    }
    Ok(Admitted { common, weights })
}

// The first refusal that applies, of 1 to 6; or the common period and the weights.
pub fn admit(cores: u32, table: &[u32]) -> Result<Admitted, Refusal>
    ensures { admission_told result ≡ admission_of cores table.now }
{
    input_test(cores, table)?;
    admit_tasks(cores, table)
}
