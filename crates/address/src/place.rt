// The physical place of a byte, and the blocks of a code.
ghost use Rattle.std.specs.Prelude.{◌≡◌};
ghost use Rattle.address.specs.Places.{place_of, block_of, place_at, block_at};

use crate::triple::Triple;

// The place at X, Y, Z. Sixteen bits each, so that no value can overflow.
#[tactic(auto, unfolding(crate::specs::Places::place_of))]
pub fn place_at(x: u16, y: u16, z: u16) -> usize
    ensures { result ≡ place_of x y z }
{
    let column = x as usize;
    let row = y as usize;
    let base = z as usize * 1024;
    if column < 32 {
        return base + row * 32 + column;
    }
    if row == 0 {
        return base + column;
    }
    base + row * 8 + column - 32
}

// The place of a triple.
pub fn place(t: Triple) -> usize
    ensures { result ≡ place_at t }
{
    place_at(t.x as u16, t.y as u16, t.z as u16)
}

// The block i after Z, counted modulo 4 inside the district of four blocks.
pub fn block(z: u8, i: u8) -> u8
    ensures { result ≡ block_of z i }
{
    z / 4 * 4 + (z % 4 + i % 4) % 4
}

// The triple in the block k after its own.
pub fn block_at(at: Triple, k: u8) -> Triple
    ensures { result ≡ block_at at k }
{
    Triple {
        z: block(at.z, k),
        ..at
    }
}
