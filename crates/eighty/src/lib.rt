// A row in 80 columns, in its lent part of the picture.
#![tactic(auto)]

pub mod line;
pub mod row;
pub mod ten;
