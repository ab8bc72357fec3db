// Questions about the cells of a row, asked of the bytes of private memory.
#![tactic(auto)]

pub mod row;
