// Planning's refusals, by number.
ghost use Rattle.std.specs.Prelude.{◌≡◌};
ghost use Rattle.units.specs.Refusals.{said};
ghost use Rattle.admission.specs.Refusals.{cores_test, table_test, task_test, tasks_test, input_test};

use crate::table::no_table;
use units::limits::{CORES, PERIOD};
use units::refusal::{Reason, Refusal};

// Refusal 1.
fn cores_test(cores: u32) -> Result<(), Refusal>
    ensures { said result ≡ cores_test cores }
{
    if cores == 0 || (CORES as u32) < cores {
        return Err(Refusal::from(Reason::Cores));
    }
    Ok(())
}

// Refusal 2.
fn table_test(table: &[u32]) -> Result<(), Refusal>
    ensures { said result ≡ table_test table.now }
{
    if no_table(table.len()) {
        return Err(Refusal::from(Reason::Table));
    }
    Ok(())
}

// Refusals 3 and 4 of task i.
fn task_test(i: usize, cost: u32, period: u32) -> Result<(), Refusal>
    ensures { said result ≡ task_test i cost period }
{
    if cost == 0 || period == 0 || PERIOD < period {
        return Err(Refusal {
            reason: Reason::Range,
            named: i,
        });
    }
    if period < cost {
        return Err(Refusal {
            reason: Reason::Cost,
            named: i,
        });
    }
    Ok(())
}

// Refusals 3 and 4: the first faulty task decides and is named.
fn tasks_test(table: &[u32]) -> Result<(), Refusal>
    ensures { said result ≡ tasks_test 1 table.now }
{
    let n = table.len() / 2;
    for k in 0..n {
        task_test(k + 1, table[2 * k], table[2 * k + 1])?;
    }
    Ok(())
}

// Refusals 1 to 4.
pub(crate) fn input_test(cores: u32, table: &[u32]) -> Result<(), Refusal>
    ensures { said result ≡ input_test cores table.now }
{
    cores_test(cores)?;
    table_test(table)?;
    tasks_test(table)
}
