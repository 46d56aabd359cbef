// The limits of document 01, "Numbers and units". Each stands here once and once in specs/Limits; `in_force` shows that the two agree.
ghost use Rattle.std.specs.Prelude.{◌≡◌};
ghost use Rattle.units.specs.Limits.{the_limits};

// Cores M, at most.
pub const CORES: usize = 16;
// Tasks N, at most.
pub const TASKS: usize = 64;
// A task's period, at most, in ticks.
pub const PERIOD: u32 = 1_000_000;
// The common period L, at most.
pub const COMMON: u32 = 1_000_000;
// The clock, at most, in ticks.
pub const CLOCK: u64 = 1_000_000_000_000;
// Unfinished runs of a task, at most.
pub const RUNS: usize = 8;

#[derive(Clone, Copy)]
pub struct Limits {
    pub cores: usize,
    pub tasks: usize,
    pub period: u32,
    pub common: u32,
    pub clock: u64,
    pub runs: usize,
}

// The limits that the code goes by are those that the definitions go by.
pub fn in_force() -> Limits
    ensures { result ≡ the_limits }
{
    Limits {
        cores: CORES,
        tasks: TASKS,
        period: PERIOD,
        common: COMMON,
        clock: CLOCK,
        runs: RUNS,
    }
}
