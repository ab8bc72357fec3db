// What a store marks: the reading list, asked the other way round.
#![tactic(auto)]

pub mod list;
pub mod span;
pub mod store;
