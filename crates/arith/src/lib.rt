// Whole-number arithmetic: greatest common divisor, common period, division rounded up.
#![tactic(auto)]

pub mod ceiling;
pub mod divisor;
pub mod period;
