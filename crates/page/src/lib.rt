// A page: the cells of a screen row, and what is asked of their bytes where they stand side by side in memory.
#![tactic(auto)]

pub mod code;
pub mod stretch;
