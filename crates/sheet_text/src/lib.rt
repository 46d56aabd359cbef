// Reading the office's sheet: a tick length and jobs, or the number that refuses it.
#![tactic(auto)]

pub mod job;
pub mod sheet;
