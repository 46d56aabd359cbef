// The rules for one task's line.
ghost use Rattle.std.specs.Prelude.{true, ◌≡◌};
ghost use Rattle.soundness.specs.Rules.{line_in, weight_is, shares_sum, line_empty};
ghost use Rattle.soundness.specs.Plan.{line_sound};

use planning::Line;
use task_shares::rows::sum_of;
use units::limits::PERIOD;

// Cost and period are in their ranges.
fn line_in(line: Line) -> bool
    ensures { result ≡ line_in line }
{
    (1 <= line.cost.0) & (line.cost.0 <= line.period.0) & (line.period.0 <= PERIOD)
}

// The weight is C × L / T: T goes into C × L as often, and once more would be too much.
fn weight_is(common: u32, line: Line) -> bool
    requires { line_in line ≡ true }
    ensures { result ≡ weight_is common line }
{
    let whole = line.cost.0 as u64 * common as u64;
    let part = line.weight.0 as u64 * line.period.0 as u64;
    (part <= whole) & (whole < part + line.period.0 as u64)
}

// The shares sum to the weight.
fn shares_sum(line: Line) -> bool
    ensures { result ≡ shares_sum line }
{
    sum_of(line.shares) == line.weight.0 as u64
}

// All rules for a task in use.
pub(crate) fn line_sound(common: u32, line: Line) -> bool
    ensures { result ≡ line_sound common line }
{
    line_in(line) && weight_is(common, line) & shares_sum(line)
}

// The rule past the last task: all numbers are 0.
pub(crate) fn line_empty(line: Line) -> bool
    ensures { result ≡ line_empty line }
{
    (line.cost.0 == 0) & (line.period.0 == 0) & (line.weight.0 == 0) & (sum_of(line.shares) == 0)
}
