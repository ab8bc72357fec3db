// The picture: the redrawing of its marked rows.
#![tactic(auto)]

pub mod eighty_rows;
pub mod redraw;
