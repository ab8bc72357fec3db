// Which cells read a byte as a slice, and which row has it among its own: by its X and Y and a few blocks.
#![tactic(auto)]

pub mod key;
pub mod own;
