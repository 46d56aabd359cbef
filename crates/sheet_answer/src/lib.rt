// What the programs `sheet` and `table` write: a line with M and a sheet in, the listing with names or the table's text out.
#![tactic(auto)]

mod input;
pub mod sheet;
pub mod table;

// Bytes of an input, at most: a line with M has eleven, a sheet 4,096.
pub const INPUT: usize = 4_107;
