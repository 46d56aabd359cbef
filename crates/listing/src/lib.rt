// The listing of a plan, document 01, "Listing and text".
#![tactic(auto)]

pub mod listed;
mod writers;
