// Which half a double height or a double width cell shows.
ghost use Rattle.std.specs.Prelude.{◌≡◌, ◌<◌, length};
ghost use Rattle.basics.specs.Below.{any_below};
ghost use Rattle.basics.specs.Parts.{table};
ghost use Rattle.basics.specs.Choice.{pick};
ghost use Rattle.address.specs.Rows.{row_y};
ghost use Rattle.shown.specs.Origins.{yor_of, first_block};
ghost use Rattle.page.specs.Codes.{row_buffer};
ghost use Rattle.page.specs.Halves.{is_wide, same_code, goes_on, lower_halves};
ghost use Rattle.halves.specs.Above.{ComparedFrom, KnownAbove, next_lower_on};
ghost use Rattle.page.specs.HowCodes.{code_of, is_fitted, Has};
ghost use Rattle.page.specs.HowHalves.{Within, right_in, goes_on_at, next_lower_at};

use address::row::row_y;
use board::Part;
use page::code::{is_fitted, is_wide};
use page::stretch::{Starts, compared_by, goes_on_at, some_on, some_wide};
use shown::Shown;
use shown::page::Page;

pub fn same_code(a: [u8; 3], b: [u8; 3]) -> bool
    ensures { result ≡ same_code a b }
{
    a == b
}

// A cell that doubles goes on from the cell before it: the same three bytes.
pub fn goes_on(doubles: bool, code: [u8; 3], before: [u8; 3]) -> bool
    ensures { result ≡ goes_on doubles code before }
{
    doubles && same_code(code, before)
}

// The right halves of a row: each asked of the cell to its left. A half hangs on the one before it, so this is a loop
// over places, and no closure without a state of its own gives it.
pub fn right_halves(cells: [[u8; 3]; 40]) -> [bool; 40]
    ensures { result ≡ table (right_in cells) 40 }
{
    let mut halves = [false; 40];
    for x in 1..40 {
        let on = goes_on(is_wide(cells[x]), cells[x], cells[x - 1]);
        halves[x] = on & !halves[x - 1];
    }
    halves
}

// The row at Y has a cell of double width.
fn has_wide(memory: &[u8], z: u8, y: u8) -> bool
    requires { Has memory.now z 1 × (y < 32) }
    ensures { result ≡ any_below (λ x. is_wide (code_of memory.now z y x)) 40 }
{
    some_wide(memory, z, y, 0, 32) | some_wide(memory, z, y, 32, 8)
}

// The right halves of a screen row. Where it has no cell of double width there is nothing to ask: so where no B byte is fitted.
pub fn right_halves_of(page: &Page, row: u8, cells: [[u8; 3]; 40]) -> [bool; 40]
    requires { cells ≡ row_buffer page.now.shown page.now.memory.now row }
    ensures { result ≡ table (right_in cells) 40 }
{
    if !is_fitted(page.shown, 1) {
        return [false; 40];
    }
    let z = page.shown.first_block();
    let y = row_y(page.shown.yor(), row);
    if has_wide(page.memory, z, y) {
        return right_halves(cells);
    }
    [false; 40]
}

// The block whose bytes are compared as third bytes: the page's third, or its first once more where that one is not fitted.
fn third_of(shown: Shown) -> u8
    ensures { result ≡ pick (is_fitted shown 2) 2 0 }
{
    if is_fitted(shown, 2) { 2 } else { 0 }
}

// Where the bytes start by which the cells of a stretch of a screen row are compared.
fn row_starts(shown: Shown, row: u8, first: u16) -> Starts
    ensures { ComparedFrom (first_block shown) (row_y (yor_of shown) row) first (pick (is_fitted shown 2) 2 0) result }
{
    compared_by(
        shown.first_block(),
        row_y(shown.yor(), row),
        first,
        third_of(shown),
    )
}

// Some cell of a row goes on from the cell above it. Where no B byte is fitted, no cell is of double height.
fn some_go_on(page: &Page, row: u8) -> bool
    requires { 0 < row }
    ensures { result ≡ any_below (goes_on_at page.now.shown page.now.memory.now row) 40 }
{
    if !is_fitted(page.shown, 1) {
        return false;
    }
    let shown = page.shown;
    let third = third_of(shown);
    let z = shown.first_block();
    let y = row_y(shown.yor(), row);
    let above = row_y(shown.yor(), row - 1);
    let part = shown.part;
    some_on(part, page.memory, z, third, y, above, 0, 32)
        | some_on(part, page.memory, z, third, y, above, 32, 8)
}

// The lower halves of a stretch of cells, put where those of the row above stand.
fn put_next(halves: &mut [bool], part: Part, memory: &[u8], here: Starts, above: Starts)
    requires { Within memory.now here (length halves.old) × Within memory.now above (length halves.old) }
    ensures { halves.new ≡ table (next_lower_on part memory.now here above halves.old) (length halves.old) }
{
    for (i, half) in halves.iter_mut().enumerate() {
        *half = goes_on_at(part, memory, here, above, i) & !*half;
    }
}

// The lower halves of a row, from those of the row above.
fn next_lowers(page: &Page, row: u8, mut halves: [bool; 40]) -> [bool; 40]
    requires { 0 < row }
    ensures { result ≡ table (next_lower_at page.now.shown page.now.memory.now row halves) 40 }
{
    if !is_fitted(page.shown, 1) {
        return [false; 40];
    }
    put_next(
        &mut halves[..32],
        page.shown.part,
        page.memory,
        row_starts(page.shown, row, 0),
        row_starts(page.shown, row - 1, 0),
    );
    put_next(
        &mut halves[32..],
        page.shown.part,
        page.memory,
        row_starts(page.shown, row, 32),
        row_starts(page.shown, row - 1, 32),
    );
    halves
}

// The lower halves of a row: each asked of the row above, the row number falling to the service row. Where no cell goes on from
// the one above it, there is nothing to ask.
pub fn lower_halves(page: &Page, row: u8) -> [bool; 40]
    ensures { result ≡ lower_halves page.now.shown page.now.memory.now row }
{
    if row == 0 {
        return [false; 40];
    }
    if some_go_on(page, row) {
        let lowers = lower_halves(page, row - 1);
        return next_lowers(page, row, lowers);
    }
    [false; 40]
}

// The lower halves of a row, by one step where those of the row above are known.
pub fn lower_halves_after(page: &Page, row: u8, above: Option<[bool; 40]>) -> [bool; 40]
    requires { KnownAbove page.now.shown page.now.memory.now row above }
    ensures { result ≡ lower_halves page.now.shown page.now.memory.now row }
{
    match above {
        Some(lowers) => next_lowers(page, row, lowers),
        None => lower_halves(page, row),
    }
}
