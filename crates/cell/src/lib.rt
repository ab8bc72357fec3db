// The cell of the 24-bit code: its kinds, its attributes and the decoder.
#![tactic(auto)]

pub mod decode;
pub mod kind;
