// Units and limits: what document 01's table of numbers fixes.
#![tactic(auto)]

pub mod limits;
pub mod refusal;
pub mod share;
pub mod ticks;
