// Lateness bounds of a plan, whoever drew it.
#![tactic(auto)]

pub mod bounds;
mod movers;
