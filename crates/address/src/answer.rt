// The address answer: where the byte of a triple is kept on a board of so many blocks.
ghost use Rattle.std.specs.Prelude.{◌≡◌};
ghost use Rattle.address.specs.Addresses.{address_of};

use crate::place::place;
use crate::triple::{Triple, is_legal};

// Why the byte of a triple has no place.
#[derive(Clone, Copy, Debug, PartialEq, Eq)]
pub enum NoPlace {
    // X above 39, or Y from 1 to 7.
    Illegal,
    // Legal, in a block that the board does not have.
    NotFitted,
}

// (The commands and the drawing ask for what they need of it, which takes less: whether the pointer is legal, whether all their blocks are fitted.)
#[tactic(auto, unfolding(crate::specs::Addresses::address_of))]
pub fn address_of(blocks: u8, at: Triple) -> Result<usize, NoPlace>
    ensures { result ≡ address_of blocks at }
{
    if !is_legal(at) {
        return Err(NoPlace::Illegal);
    }
    if blocks <= at.z {
        return Err(NoPlace::NotFitted);
    }
    Ok(place(at))
}
