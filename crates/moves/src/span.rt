// Whether the bytes of a move at a pointer, in its block and in those after it, lie in blocks that the board has.
ghost use Rattle.std.specs.Prelude.{◌≡◌};
ghost use Rattle.moves.specs.Spans.{is_bare_in};
ghost use Rattle.basics.specs.Below.{any_below};

use address::fitted::has_district;
use address::place::block;
use address::triple::Triple;

// Some of them does not. On a board that has the whole district one comparison tells it. (A loop: of `any` over the numbers
// the check finds no proof.)
pub fn is_bare(blocks: u8, at: Triple, bytes: u8) -> bool
    ensures { result ≡ any_below (is_bare_in blocks at) bytes }
{
    if has_district(blocks, at.z) {
        return false;
    }
    let mut bare = false;
    for k in 0..bytes {
        bare |= blocks <= block(at.z, k);
    }
    bare
}
