// What a phase change marks.
ghost use Rattle.std.specs.Prelude.{◌≡◌, ◌&&◌, ◌+◌, ◌<◌, ◌≤◌, length};
ghost use Rattle.board.specs.declared.Part.TheVariants.{Ef9345};
ghost use Rattle.address.specs.Rows.{row_y};
ghost use Rattle.page.specs.HowCodes.{Has};
ghost use Rattle.page.specs.Marks.{marked_too};
ghost use Rattle.reading.specs.Marks.{flash_in, phase_marks};
ghost use Rattle.asking.specs.HowAsked.{flash_at, pair_flash_at, blink_at};
ghost use Rattle.phases.specs.HowPhases.{are_quiet};

use crate::bare::bare_flash_in;
use crate::rows::mark_where;
use address::row::row_y;
use asking::row::{has_blink, has_flash, has_pair_flash, near_blinks};
use board::Part;
use page::code::is_fitted;
use shown::page::Page;

// No cell of the four rows from Y on has its A3 set, so that none flashes: one look at their A bytes. It is not taken where the row before was marked,
// since on a page that flashes everywhere it would be in vain, nor where the Ys begin again within the four.
fn are_quiet(memory: &[u8], z: u8, y: u8, before: bool) -> bool
    requires { Has memory.now z 2 × (8 ≤ y) }
    ensures { result ≡ are_quiet memory.now z y before }
{
    let asked = !before && y <= 28;
    asked && !near_blinks(memory, z, y)
}

// The rows that flash, of an EF9345: the service row, and then four at a time, counted by g.
fn flash_in(marks: &mut [bool; 25], memory: &[u8], z: u8, yor: u8)
    requires { Has memory.now z 1 × Has memory.now z 2 }
    ensures { marks.new ≡ marked_too (λ r. flash_at Ef9345 memory.now z (row_y yor r)) marks.old }
{
    mark_where(marks, 0..1, |r| has_flash(memory, z, row_y(yor, r)));
    for g in 0..6usize {
        let r = 1 + 4 * g;
        if !are_quiet(memory, z, row_y(yor, r as u8), marks[r - 1]) {
            mark_where(marks, r..r + 4, |r| has_flash(memory, z, row_y(yor, r)));
        }
    }
}

// The rows that flash in 80 columns.
fn pair_flash_in(marks: &mut [bool; 25], memory: &[u8], z: u8, yor: u8)
    requires { Has memory.now z 0 × Has memory.now z 1 × Has memory.now z 2 }
    ensures { marks.new ≡ marked_too (λ r. pair_flash_at memory.now z (row_y yor r)) marks.old }
{
    mark_where(marks, 0..25, |r| has_pair_flash(memory, z, row_y(yor, r)));
}

// A screen row has a cell whose A3 is set.
fn row_blinks(memory: &[u8], z: u8, yor: u8, row: u8) -> bool
    requires { Has memory.now z 2 }
    ensures { result ≡ blink_at memory.now z (row_y yor row) }
{
    has_blink(memory, z, row_y(yor, row))
}

// The rows that have such a cell: those that flash, of a TS9347.
fn blink_in(marks: &mut [bool; 25], memory: &[u8], z: u8, yor: u8)
    requires { Has memory.now z 2 }
    ensures { marks.new ≡ marked_too (λ r. blink_at memory.now z (row_y yor r)) marks.old }
{
    mark_where(marks, 0..25, |r| row_blinks(memory, z, yor, r));
}

// Where the page's third block is not fitted every A is 0, and nothing flashes in either mode.
fn flash_marks(marks: [bool; 25], page: &Page) -> [bool; 25]
    ensures { result ≡ marked_too (flash_in page.now.shown page.now.memory.now) marks }
{
    let shown = page.shown;
    if !is_fitted(shown, 2) {
        return marks;
    }
    let mut after = marks;
    let z = shown.first_block();
    let yor = shown.yor();
    let fitted = is_fitted(shown, 1);
    if shown.is_eighty() {
        if fitted {
            pair_flash_in(&mut after, page.memory, z, yor);
            return after;
        }
        bare_flash_in(&mut after, page);
        return after;
    }
    if fitted {
        let part = shown.part;
        match part {
            Part::Ef9345 => {
                flash_in(&mut after, page.memory, z, yor);
                return after;
            }
            Part::Ts9347 => {
                blink_in(&mut after, page.memory, z, yor);
                return after;
            }
        }
    }
    bare_flash_in(&mut after, page);
    after
}

// The marks after the phase has changed.
pub fn phase_marks(marks: [bool; 25], page: &Page) -> [bool; 25]
    ensures { result ≡ phase_marks page.now.shown page.now.memory.now marks }
{
    if page.shown.can_draw() {
        return flash_marks(marks, page);
    }
    marks
}
