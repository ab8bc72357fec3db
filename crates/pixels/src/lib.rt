// The pixels of a cell: the slice that each line shows, its bits, and the packed pairs that its lines are made of.
#![tactic(auto)]

pub mod height;
pub mod pairs;
pub mod width;
