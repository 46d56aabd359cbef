// What each call tests: first what every call does, then its own.
#![tactic(auto)]

ghost use Rattle.std.specs.Prelude.{◌≡◌};
ghost use Rattle.units.specs.Refusals.{number, number_said};
ghost use Rattle.call_tests.specs.Tests.{shared_tests, release_tests, finish_tests};

use units::limits::{CLOCK, RUNS};
use units::refusal::Reason;
use units::ticks::Ticks;

// The first refusal of 15, the reason for a wrong task or core, not from 1 to n, 12 and 8.
// Numbers, not the record: a record that is handed on is copied.
pub fn shared_tests(
    sound: bool,
    wrong: Reason,
    n: usize,
    i: usize,
    clock: Ticks,
    time: Ticks,
) -> Result<(), Reason>
    ensures { number_said result ≡ shared_tests sound (number wrong) n i clock.0 time.0 }
{
    if !sound {
        return Err(Reason::Unsound);
    }
    if (i == 0) | (n < i) {
        return Err(wrong);
    }
    if CLOCK < time.0 {
        return Err(Reason::Clock);
    }
    if time.0 < clock.0 {
        return Err(Reason::Past);
    }
    Ok(())
}

// The same by number, with any number for a wrong task or core: `Reason::Task` stands in its place.
pub fn shared_number(sound: bool, wrong: u32, n: usize, i: usize, clock: Ticks, time: Ticks) -> u32
    ensures { result ≡ shared_tests sound wrong n i clock.0 time.0 }
{
    match shared_tests(sound, Reason::Task, n, i, clock, time) {
        Ok(()) => 0,
        Err(Reason::Task) => wrong,
        Err(reason) => reason.number(),
    }
}

// Those of a release, by its release time and its task's unfinished runs: 12, then 10.
pub fn release_tests(released: Ticks, live: usize) -> Result<(), Reason>
    ensures { number_said result ≡ release_tests released.0 live }
{
    if CLOCK < released.0 {
        return Err(Reason::Clock);
    }
    if live == RUNS {
        return Err(Reason::Backlog);
    }
    Ok(())
}

// That of a finish, by its task's unfinished runs and whether the oldest is held: 11.
pub fn finish_tests(live: usize, held: bool) -> Result<(), Reason>
    ensures { number_said result ≡ finish_tests live held }
{
    let none = live == 0;
    if none | held {
        return Err(Reason::NoRun);
    }
    Ok(())
}
