// What a move asks of its pointers, and how they go on with a step of it.
#![tactic(auto)]

pub mod onward;
pub mod span;
