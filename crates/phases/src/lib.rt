// The rows that a phase change marks.
#![tactic(auto)]

pub mod bare;
pub mod phase;
pub mod rows;
