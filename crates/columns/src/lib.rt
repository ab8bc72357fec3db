// What is worked out once for the ten lines of a row: the ten bytes and the four pairs of each of its forty cells.
#![tactic(auto)]

pub mod column;
pub mod pairs;
pub mod plain;
pub mod ten;
