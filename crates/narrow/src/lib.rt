// A cell of the 12-bit code, six pixels wide: what its ten lines show, and the packed bytes that they choose.
#![tactic(auto)]

pub mod ink;
pub mod mosaic;
pub mod pair;
pub mod ten;
pub mod text;
