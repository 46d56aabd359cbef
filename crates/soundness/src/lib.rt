// Soundness of a plan: every rule, for any numbers whatever.
#![tactic(auto)]

mod cores;
mod lines;
pub mod plan;
mod sums;
