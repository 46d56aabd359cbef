// What a task is at, beside its line of the plan.
#![tactic(auto)]

pub mod due;
pub mod key;
pub mod runs;
pub mod tests;

use units::limits::{CORES, RUNS};
use units::ticks::Ticks;

// What a task is at: its last release time, its unfinished runs' deadlines and cores from 1, oldest first, its turn counts and their place in the cycle,
// how many runs are unfinished, and 1 if it had a release, else 0.
// No padding, and each number of any value: the record can be lent as it is.
#[repr(C)]
#[derive(Clone, Copy)]
pub struct State {
    pub last: Ticks,
    pub deadlines: [Ticks; RUNS],
    pub counts: [u32; CORES],
    pub place: u32,
    pub cores: [u8; RUNS],
    pub live: u16,
    pub had: u16,
}

impl State {
    pub const FRESH: State = State {
        last: Ticks(0),
        deadlines: [Ticks(0); RUNS],
        counts: [0; CORES],
        place: 0,
        cores: [0; RUNS],
        live: 0,
        had: 0,
    };
}
