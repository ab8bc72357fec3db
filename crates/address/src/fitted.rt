// Whether every byte of a code lies in a block that the board has. The bytes of one code lie in one district of four blocks, and on a board
// that has the whole district one comparison tells it.
ghost use Rattle.std.specs.Prelude.{◌≡◌, ◌+◌, ◌*◌, ◌/◌, ◌&&◌, nat_lt};
ghost use Rattle.address.specs.Narrow.{attributes_at};
ghost use Rattle.address.specs.Places.{block_at};
ghost use Rattle.address.specs.Triples.{fitted};

use crate::place::block;
use crate::position::attributes_at;
use crate::triple::Triple;

// Whether the board has the four blocks of the district of Z.
pub fn has_district(blocks: u8, z: u8) -> bool
    ensures { result ≡ nat_lt (z / 4 * 4 + 3) blocks }
{
    z / 4 * 4 + 3 < blocks
}

// The three bytes of a code.
pub fn is_code_fitted(blocks: u8, at: Triple) -> bool
    ensures { result ≡ (fitted blocks (block_at at 0) && (fitted blocks (block_at at 1) && fitted blocks (block_at at 2))) }
{
    if has_district(blocks, at.z) {
        return true;
    }
    let c = block(at.z, 0) < blocks;
    let b = block(at.z, 1) < blocks;
    let a = block(at.z, 2) < blocks;
    c && b && a
}

// The byte of a 12-bit code, and that of its attributes.
pub fn is_narrow_fitted(blocks: u8, at: Triple) -> bool
    ensures { result ≡ (fitted blocks at && fitted blocks (attributes_at at)) }
{
    has_district(blocks, at.z) || at.z < blocks && attributes_at(at).z < blocks
}
