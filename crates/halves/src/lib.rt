// The lower and the right halves of double cells.
#![tactic(auto)]

pub mod half;
