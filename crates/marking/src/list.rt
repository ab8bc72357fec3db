// The rows whose list holds a byte at X and Y in one of a few blocks. X and Y say at once which row could have it among its own bytes, and
// which one character could have it as a slice, so one look at a row answers for all the blocks.
ghost use Rattle.std.specs.Prelude.{◌≡◌, true, ◌&&◌, ◌+◌, ◌<◌, ◌≤◌, eqb, length};
ghost use Rattle.address.specs.Triples.{on_page};
ghost use Rattle.address.specs.Rows.{row_y};
ghost use Rattle.page.specs.HowCodes.{Has};
ghost use Rattle.page.specs.Marks.{marked_too};
ghost use Rattle.marking.specs.HowMarked.{falls_to, in_group, some_on_list};
ghost use Rattle.asking.specs.HowAsked.{tall_at, keyed_at};
ghost use Rattle.keys.specs.HowKeys.{AllFitted, row_at, some_code_block, keys_high};

use address::place::block;
use address::row::row_y;
use asking::row::{has_character, has_keyed, has_tall, near_has};
use board::Part;
use keys::key::{Keys, is_source, keys_of, some_code_block};
use keys::own::row_at;
use shown::page::Page;

// The row that has the byte among its own, and those below it down to the first without a cell of double height.
fn reach(marks: &mut [bool; 25], part: Part, memory: &[u8], z: u8, yor: u8, row: u8)
    requires { Has memory.now z 1 × (row < 25) }
    ensures { marks.new ≡ marked_too (falls_to (λ r. tall_at part memory.now z (row_y yor r)) row) marks.old }
{
    let own = row as usize;
    marks[own] = true;
    for r in own + 1..25 {
        if !has_tall(part, memory, z, row_y(yor, r as u8)) {
            return;
        }
        marks[r] = true;
    }
}

// The row that has a byte at Y in one of the blocks among its own. No row above it or below it is asked.
fn own_row(marks: &mut [bool; 25], z: u8, yor: u8, y: u8, blocks: [u8; 3])
    ensures { marks.new ≡ marked_too (λ r. eqb r (row_at yor y) && some_code_block z blocks) marks.old }
{
    let r = row_at(yor, y) as usize;
    marks[r] |= some_code_block(z, blocks);
}

// The rows that read a byte at Y in one of the blocks as one of their own, or of a row above.
fn own_marks(
    marks: &mut [bool; 25],
    part: Part,
    memory: &[u8],
    z: u8,
    yor: u8,
    y: u8,
    blocks: [u8; 3],
)
    requires { Has memory.now z 1 }
    ensures { marks.new ≡ marked_too (λ r. some_code_block z blocks && falls_to (λ i. tall_at part memory.now z (row_y yor i)) (row_at yor y) r) marks.old }
{
    if some_code_block(z, blocks) {
        reach(marks, part, memory, z, yor, row_at(yor, y));
    }
}

// The rows with a Y and the next that the keys fit. (A loop over the Ys, of which each row's number is worked out.)
fn group_marks(marks: &mut [bool; 25], memory: &[u8], z: u8, yor: u8, first: u8, keys: Keys)
    requires { Has memory.now z 0 × Has memory.now z 1 × (8 ≤ first) × (first < 31) × (keys_high keys ≡ true) }
    ensures { marks.new ≡ marked_too (λ r. in_group first (first + 2) (row_y yor r) && keyed_at keys memory.now z (row_y yor r)) marks.old }
{
    for y in first..first + 2 {
        let r = row_at(yor, y) as usize;
        let marked = marks[r];
        marks[r] = marked || has_keyed(memory, z, y, keys);
    }
}

// The service row, if the keys fit it. Its mark is looked at last, since most often it does not have the character.
fn service_marks(marks: &mut [bool; 25], memory: &[u8], z: u8, keys: Keys)
    requires { Has memory.now z 0 × Has memory.now z 1 × (keys_high keys ≡ true) }
    ensures { marks.new ≡ marked_too (λ r. eqb r 0 && keyed_at keys memory.now z 0) marks.old }
{
    if has_character(memory, z, 0, keys.character) {
        marks[0] = marks[0] || has_keyed(memory, z, 0, keys);
    }
}

// The rows that the keys fit, by Y: two rows of which neither has the character are left by one look at both. The service row, at Y 0, is asked
// by itself, since no row follows on it.
fn slice_marks(marks: &mut [bool; 25], memory: &[u8], z: u8, yor: u8, keys: Keys)
    requires { Has memory.now z 0 × Has memory.now z 1 × (keys_high keys ≡ true) }
    ensures { marks.new ≡ marked_too (λ r. keyed_at keys memory.now z (row_y yor r)) marks.old }
{
    service_marks(marks, memory, z, keys);
    for g in 0u8..12 {
        let y = 8 + 2 * g;
        if near_has(memory, z, y, keys.character) {
            group_marks(marks, memory, z, yor, y, keys);
        }
    }
}

// The rows whose list holds a byte at X and Y in one of the blocks; 255 is none. In 80 columns a list is the row's own bytes. So it is where the page's second
// block is not fitted: every B is 0 there, and no cell is of double height, of a user set or quadrichrome.
pub fn list_marks(marks: &mut [bool; 25], page: &Page, x: u8, y: u8, blocks: [u8; 3])
    requires { (on_page x y ≡ true) × AllFitted page.now.shown.blocks blocks }
    ensures { marks.new ≡ marked_too (some_on_list page.now.shown page.now.memory.now x y blocks) marks.old }
{
    let shown = page.shown;
    let yor = shown.yor();
    let z = shown.first_block();
    let eighty = shown.is_eighty();
    if eighty || shown.blocks <= block(z, 1) {
        own_row(marks, z, yor, y, blocks);
        return;
    }
    let part = shown.part;
    own_marks(marks, part, page.memory, z, yor, y, blocks);
    let keys = keys_of(shown, x, y, blocks);
    if is_source(keys) {
        slice_marks(marks, page.memory, z, yor, keys);
    }
}
