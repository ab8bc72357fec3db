// The slices that the ten lines of a cell show, side by side.
#![tactic(auto)]

pub mod slice;
