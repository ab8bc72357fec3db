// Where a cell's slices come from, and the ten of them.
#![tactic(auto)]

pub mod source;
