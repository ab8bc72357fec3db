// What a store marks, and what the three stores of a code and the two of a position of 80 columns do, which differ in the block alone.
ghost use Rattle.std.specs.Prelude.{◌≡◌, true, ◌+◌, ◌*◌, ◌<◌, length};
ghost use Rattle.basics.specs.Below.{any_below};
ghost use Rattle.address.specs.Narrow.{attributes_at};
ghost use Rattle.address.specs.Triples.{legal_in, on_page};
ghost use Rattle.address.specs.Places.{place_of, block_at};
ghost use Rattle.keys.specs.HowKeys.{AllFitted};
ghost use Rattle.page.specs.Marks.{marked_too};
ghost use Rattle.reading.specs.Marks.{store_marks, stores_marks, code_stores, narrow_stores};
ghost use Rattle.marking.specs.HowMarked.{is_unmarked, changed_block, some_on_list, change_marks};

use crate::list::list_marks;
use address::place::{block, place_at};
use address::position::attributes_at;
use address::triple::Triple;
use keys::key::some_changed;
use shown::page::Page;

// Some row is not marked yet.
fn some_unmarked(marks: &[bool; 25]) -> bool
    ensures { result ≡ any_below (is_unmarked marks.now) 25 }
{
    marks.contains(&false)
}

// Where every row is marked none is asked. That question looks at a copy: of marks that are lent the compiler may not read all 25 at once.
fn asked_marks(marks: &mut [bool; 25], page: &Page, x: u8, y: u8, blocks: [u8; 3])
    requires { (on_page x y ≡ true) × AllFitted page.now.shown.blocks blocks }
    ensures { marks.new ≡ marked_too (some_on_list page.now.shown page.now.memory.now x y blocks) marks.old }
{
    let before = *marks;
    if some_unmarked(&before) {
        list_marks(marks, page, x, y, blocks);
    }
}

// The marks after bytes at X and Y have changed in the blocks, in place: copying them in and out would cost more than most
// questions. The page comes by value, so that a store that changes nothing, or nothing that is shown, builds none in memory.
pub fn change_marks(marks: &mut [bool; 25], page: Page, x: u8, y: u8, blocks: [u8; 3])
    requires { (on_page x y ≡ true) × AllFitted page.shown.blocks blocks }
    ensures { marks.new ≡ change_marks page.entry.shown page.entry.memory.now x y blocks marks.old }
{
    if page.shown.can_draw() {
        asked_marks(marks, &page, x, y, blocks);
    }
}

// The same of marks by value. Most often no block is there, and nothing is to be marked. Always compiled into its callers:
// as a call it costs each store some seventy instructions.
#[inline(always)]
pub fn marks_after(mut marks: [bool; 25], page: &Page, x: u8, y: u8, blocks: [u8; 3]) -> [bool; 25]
    requires { (on_page x y ≡ true) × AllFitted page.now.shown.blocks blocks }
    ensures { result ≡ change_marks page.now.shown page.now.memory.now x y blocks marks }
{
    if some_changed(blocks) {
        change_marks(&mut marks, *page, x, y, blocks);
    }
    marks
}

// Block Z where the value changes the byte that it has at this offset, and else 255. The number of the board's blocks is a byte, so that 255 is none of them.
pub fn changed_block(page: &Page, at: usize, z: u8, value: u8) -> u8
    requires { (at < 1024) × (z < page.now.shown.blocks) }
    ensures { (result ≡ changed_block page.now.memory.now (1024 * z + at) z value) × (z < 255) }
{
    if page.memory[z as usize * 1024 + at] == value {
        return 255;
    }
    z
}

// The marks after C, B and A are stored at a legal triple and in the two blocks after its own, all fitted; the stores themselves come after. Three
// stores mark what the lists before the first of them hold, so one look at a row answers for all three.
pub fn code_marks(
    marks: [bool; 25],
    page: &Page,
    at: Triple,
    here: usize,
    c: u8,
    b: u8,
    a: u8,
) -> [bool; 25]
    requires { (here ≡ place_of at.x at.y 0)
        × (legal_in page.now.shown.blocks (block_at at 0) ≡ true) × (legal_in page.now.shown.blocks (block_at at 1) ≡ true) × (legal_in page.now.shown.blocks (block_at at 2) ≡ true) }
    ensures { result ≡ stores_marks page.now.shown page.now.memory.now (code_stores at c b a) marks }
{
    let blocks = [
        changed_block(page, here, block(at.z, 0), c),
        changed_block(page, here, block(at.z, 1), b),
        changed_block(page, here, block(at.z, 2), a),
    ];
    marks_after(marks, page, at.x, at.y, blocks)
}

// The marks after C and the attributes of its column are stored at a legal triple's place and at theirs, both fitted; the stores themselves come after.
pub fn narrow_marks(marks: [bool; 25], page: &Page, at: Triple, c: u8, a: u8) -> [bool; 25]
    requires { (legal_in page.now.shown.blocks at ≡ true) × (legal_in page.now.shown.blocks (attributes_at at) ≡ true) }
    ensures { result ≡ stores_marks page.now.shown page.now.memory.now (narrow_stores at c a) marks }
{
    let here = place_at(at.x as u16, at.y as u16, 0);
    let attributes = attributes_at(at);
    let blocks = [
        changed_block(page, here, at.z, c),
        changed_block(page, here, attributes.z, a),
        255,
    ];
    marks_after(marks, page, at.x, at.y, blocks)
}

// The marks after a store of `value` at a triple that is legal and fitted; the store itself comes after.
pub fn store_marks(marks: [bool; 25], page: &Page, at: Triple, value: u8) -> [bool; 25]
    requires { (legal_in page.now.shown.blocks at ≡ true) }
    ensures { result ≡ store_marks page.now.shown page.now.memory.now (place_of at.x at.y at.z) value marks }
{
    let here = place_at(at.x as u16, at.y as u16, 0);
    let blocks = [changed_block(page, here, at.z, value), 255, 255];
    marks_after(marks, page, at.x, at.y, blocks)
}
