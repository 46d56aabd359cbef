// Admission: whether a table is taken, with its common period and weights, or the first refusal that applies.
#![tactic(auto)]

pub mod admit;
mod refusals;
pub mod table;
mod weights;
