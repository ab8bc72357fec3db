// Where a byte is kept: the board, pointers, legal triples, places, the address answer, what is fitted, 12-bit codes and screen rows.
#![tactic(auto)]

pub mod answer;
pub mod byte;
pub mod fitted;
pub mod place;
pub mod pointer;
pub mod position;
pub mod row;
pub mod triple;
