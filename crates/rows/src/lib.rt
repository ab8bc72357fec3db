// A row in its lent part of the picture.
#![tactic(auto)]

pub mod row;
