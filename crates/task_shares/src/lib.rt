// Fixed tasks and movers, by a task's row of shares.
#![tactic(auto)]

pub mod rows;
pub mod standing;
