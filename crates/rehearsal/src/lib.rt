// A rehearsal of a day, in which quiet ticks are taken at once.
#![tactic(auto)]

pub mod ending;
mod parts;
mod steps;
