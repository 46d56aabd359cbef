// The call player: a table and calls in, a line for each call out.
#![tactic(auto)]

mod answers;
pub mod play;
mod played;
