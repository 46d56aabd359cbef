// When a run is released, and whether it is held.
#![tactic(auto)]

ghost use Rattle.std.specs.Prelude.{◌≡◌, ◌≤◌};
ghost use Rattle.units.specs.Limits.{clock_limit};
ghost use Rattle.units.specs.Units.{ticks};
ghost use Rattle.release_times.specs.Times.{release_time, held_at};

use units::ticks::{Duration, Ticks};

// The release time of a run that comes now: its call's time, or the last release time plus T where that is later, for a task that has had a release.
pub fn release_time(had: u16, last: Ticks, period: Duration, time: Ticks) -> Ticks
    requires { last.0 ≤ clock_limit }
    ensures { result ≡ ticks (release_time had last.0 period.0 time.0) }
{
    let next = last.0 + period.0 as u64;
    if (had == 1) & (time.0 < next) {
        return Ticks(next);
    }
    time
}

// A run that is due so long after its release is not released yet.
pub fn held(deadline: Ticks, after: Duration, time: Ticks) -> bool
    requires { time.0 ≤ clock_limit }
    ensures { result ≡ held_at after.0 deadline.0 time.0 }
{
    let released = time.0 + after.0 as u64;
    released < deadline.0
}
