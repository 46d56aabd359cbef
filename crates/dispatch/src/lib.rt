// The dispatcher: a record that goes in by value and comes back, and the calls on it.
#![tactic(auto)]

pub mod call;
pub mod finish;
pub mod look;
pub mod plan;
pub mod release;
pub mod sound;

use planning::Plan;
use task_state::State;
use units::limits::TASKS;
use units::refusal::Reason;
use units::ticks::Ticks;

// What a call answers, or why it is refused; and the record after it, which is the same where it is refused.
#[derive(Clone, Copy)]
pub struct After<T> {
    pub answer: Result<T, Reason>,
    pub next: Record,
}

// The plan, the clock, and what each of its tasks is at.
#[repr(C)]
#[derive(Clone, Copy)]
pub struct Record {
    pub plan: Plan,
    pub clock: Ticks,
    pub states: [State; TASKS],
}
