// The processor as bytes: the 64 that a caller keeps, and the 48 that show its state.
#![tactic(auto)]

pub mod layout;
pub mod part;
pub mod report;
