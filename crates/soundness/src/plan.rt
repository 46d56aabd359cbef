// A plan is sound if every rule holds.
ghost use Rattle.std.specs.Prelude.{◌≡◌, ◌<◌};
ghost use Rattle.soundness.specs.Rules.{numbers_in};
ghost use Rattle.soundness.specs.Plan.{plan_sound};
ghost use Rattle.soundness.specs.Inner.{divisor_with};

use crate::cores::cores_sound;
use crate::lines::{line_empty, line_sound};
use crate::sums::Sums;
use arith::divisor::gcd;
use planning::Plan;
use units::limits::{COMMON, CORES, TASKS};

// Cores, tasks and the common period are in their ranges.
fn numbers_in(plan: Plan) -> bool
    ensures { result ≡ numbers_in plan }
{
    (1 <= plan.cores)
        & (plan.cores <= CORES as u32)
        & (1 <= plan.count)
        & (plan.count <= TASKS)
        & (1 <= plan.common)
        & (plan.common <= COMMON)
}

// The greatest common divisor of the quotients so far and of L / T, 0 where T does not divide L; once 1 it stays 1.
fn divisor_with(divisor: u32, common: u32, period: u32) -> u32
    requires { 0 < period }
    ensures { result ≡ divisor_with divisor common period }
{
    if common % period != 0 {
        return 0;
    }
    if divisor == 1 {
        return 1;
    }
    gcd(divisor, common / period)
}

// In one pass over the lines, from the last to the first: so the definitions fold the table of shares.
pub fn plan_sound(plan: Plan) -> bool
    ensures { result ≡ plan_sound plan }
{
    if !numbers_in(plan) {
        return false;
    }
    let common = plan.common;
    let count = plan.count;
    let mut sums = Sums::NONE;
    let mut divisor: u32 = 0;
    for i in (0..TASKS).rev() {
        let line = plan.lines[i];
        if i < count {
            if !line_sound(common, line) {
                return false;
            }
            divisor = divisor_with(divisor, common, line.period.0);
            if divisor == 0 {
                return false;
            }
            sums = sums.with_line(line);
        } else if !line_empty(line) {
            return false;
        }
    }
    (divisor == 1) & cores_sound(sums, plan.cores as usize, common)
}
