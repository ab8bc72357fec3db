// A line of a row, built by value from what was worked out once for the row: the byte of each cell, and the packed bytes that it chooses.
#![tactic(auto)]

pub mod byte;
pub mod line;
pub mod pack;
