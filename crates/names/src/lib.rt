// Names of jobs: 1 to 12 small letters.
#![tactic(auto)]

pub mod name;
