// Reading at a place of a text: a number, a word, two numbers on a line.
#![tactic(auto)]

pub mod line;
pub mod lines;
pub mod number;
pub mod word;
