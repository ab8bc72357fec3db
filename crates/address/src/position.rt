// Where a 12-bit code is kept: its C byte at a triple of its own, and its attributes in one half of the byte that its column has for both
// positions.
ghost use Rattle.std.specs.Prelude.{◌≡◌};
ghost use Rattle.address.specs.Narrow.{is_odd, attributes_at, nibble_for, nibble_into, both_halves};

use crate::place::block_at;
use crate::triple::Triple;

// Z0 says even or odd.
pub fn is_odd(at: Triple) -> bool
    ensures { result ≡ is_odd at }
{
    at.z % 2 == 1
}

// Two blocks after that of the even position.
pub fn attributes_at(at: Triple) -> Triple
    ensures { result ≡ attributes_at at }
{
    let even = Triple {
        z: at.z / 2 * 2,
        ..at
    };
    block_at(even, 2)
}

// The low half is the odd position's.
#[tactic(auto, unfolding(crate::specs::Narrow::nibble_for))]
pub fn nibble_for(odd: bool, byte: u8) -> u8
    ensures { result ≡ nibble_for odd byte }
{
    if odd { byte % 16 } else { byte / 16 }
}

// The position's nibble, in both halves.
#[tactic(auto, using(crate::proofs::Positions::nibble_small))]
pub fn both_halves(odd: bool, byte: u8) -> u8
    ensures { result ≡ both_halves (nibble_for odd byte) }
{
    let nibble = nibble_for(odd, byte);
    16 * nibble + nibble
}

// The byte with the position's half from R3, and the other as it is.
#[tactic(auto, unfolding(crate::specs::Narrow::nibble_into))]
pub fn nibble_into(odd: bool, byte: u8, r3: u8) -> u8
    ensures { result ≡ nibble_into odd byte r3 }
{
    if odd {
        byte / 16 * 16 + r3 % 16
    } else {
        r3 / 16 * 16 + byte % 16
    }
}
