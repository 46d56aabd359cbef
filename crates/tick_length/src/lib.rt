// Nanoseconds as ticks of a tick length: costs round up, periods round down.
#![tactic(auto)]

ghost use Rattle.std.specs.Prelude.{◌≡◌, ◌<◌};
ghost use Rattle.tick_length.specs.Ticks.{tick_in, cost_ticks, period_ticks};
ghost use Rattle.tick_length.specs.Inner.{held};

use arith::ceiling::ceil_div;

// The longest tick, in nanoseconds.
pub const LONGEST: u64 = 1_000_000;

// Whether a tick length is in range.
pub fn tick_in(tick: u64) -> bool
    ensures { result ≡ tick_in tick }
{
    0 < tick && tick <= LONGEST
}

// What 32 bits hold of a number: itself, or the largest of them.
fn hold(n: u64) -> u32
    ensures { result ≡ held n }
{
    u32::try_from(n).unwrap_or(u32::MAX)
}

// A cost in ticks, rounded up.
pub fn cost_ticks(cost: u64, tick: u64) -> u32
    requires { 0 < tick }
    ensures { result ≡ held (cost_ticks tick cost) }
{
    hold(ceil_div(cost, tick))
}

// A period in ticks, rounded down.
pub fn period_ticks(period: u64, tick: u64) -> u32
    requires { 0 < tick }
    ensures { result ≡ held (period_ticks tick period) }
{
    hold(period / tick)
}
