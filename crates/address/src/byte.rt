// Bytes of memory: the one that is kept at a triple that is legal and fitted, and the one at any place, where memory may end before it.
ghost use Rattle.std.specs.Prelude.{◌≡◌, true, length};
ghost use Rattle.board.specs.Boards.{bytes_of};
ghost use Rattle.address.specs.Places.{loaded, byte_at};
ghost use Rattle.address.specs.Triples.{legal_in};

use crate::place::place;
use crate::triple::Triple;

#[tactic(auto, using(crate::proofs::Places::place_fits_in))]
pub fn load(memory: &[u8], blocks: u8, at: Triple) -> u8
    requires { (length memory.now ≡ bytes_of blocks) × (legal_in blocks at ≡ true) }
    ensures { result ≡ loaded at memory.now }
{
    memory[place(at)]
}

// 0 past the end of memory.
pub fn byte_or_zero(memory: &[u8], p: usize) -> u8
    ensures { result ≡ byte_at memory.now p }
{
    memory.get(p).copied().unwrap_or(0)
}
