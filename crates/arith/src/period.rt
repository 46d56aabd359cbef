// The common period of a table of tasks.
ghost use Rattle.std.specs.Prelude.{◌≡◌};
ghost use Rattle.arith.specs.Period.{periods, period_of};

use crate::divisor::lcm;
use units::limits::COMMON;

// The common period of a table, cost then period for each task: the least common multiple of all periods;
// or the first task, from 1, whose period takes it over the limit.
pub fn common_period(table: &[u32]) -> Result<u32, usize>
    ensures { result ≡ period_of (periods table.now) }
{
    let n = table.len() / 2;
    let mut l: u32 = 1;
    for k in 0..n {
        let m = lcm(l, table[2 * k + 1]);
        if (COMMON as u64) < m {
            return Err(k + 1);
        }
        l = m as u32;
    }
    Ok(l)
}
