// The call player's input: a table's text, a line `calls`, then one call to a line.
#![tactic(auto)]

pub mod calls;
pub mod line;

// Bytes of an input, at most.
pub const INPUT: usize = 65_536;
