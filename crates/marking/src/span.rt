// What the stores of one position of a move mark: one, two or three bytes at a triple and in the blocks after its own, which differ in the block
// alone.
ghost use Rattle.std.specs.Prelude.{◌≡◌, true, ℕ, ◌+◌, ◌*◌, ◌<◌, ◌≤◌, length, take};
ghost use Rattle.basics.specs.Choice.{pick};
ghost use Rattle.address.specs.Triples.{legal_in};
ghost use Rattle.address.specs.Places.{place_of, block_at};
ghost use Rattle.reading.specs.Marks.{stores_marks, code_stores};
ghost use Rattle.marking.specs.HowMarked.{changed_block};

use crate::store::{changed_block, marks_after};
use address::place::block;
use address::triple::Triple;
use shown::page::Page;

// The block of a byte that is one of them, where it changes, and else 255.
fn changed_if(asked: bool, page: &Page, at: usize, z: u8, value: u8) -> u8
    requires { (at < 1024) × (asked ≡ true → z < page.now.shown.blocks) }
    ensures { (result ≡ pick asked (changed_block page.now.memory.now (1024 * z + at) z value) 255) × (asked ≡ true → z < 255) }
{
    if asked {
        return changed_block(page, at, z, value);
    }
    255
}

// The marks after the first bytes of C, B and A are stored; the stores themselves come after. One look at a row answers for all.
pub fn span_marks(
    marks: [bool; 25],
    page: &Page,
    at: Triple,
    here: usize,
    bytes: u8,
    c: u8,
    b: u8,
    a: u8,
) -> [bool; 25]
    requires { (here ≡ place_of at.x at.y 0) × (1 ≤ bytes) × (bytes ≤ 3)
        × ((k : ℕ) → k < bytes → legal_in page.now.shown.blocks (block_at at k) ≡ true) }
    ensures { result ≡ stores_marks page.now.shown page.now.memory.now (take bytes (code_stores at c b a)) marks }
{
    let blocks = [
        changed_block(page, here, block(at.z, 0), c),
        changed_if(1 < bytes, page, here, block(at.z, 1), b),
        changed_if(2 < bytes, page, here, block(at.z, 2), a),
    ];
    marks_after(marks, page, at.x, at.y, blocks)
}
