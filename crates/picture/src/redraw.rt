// The redrawing of the marked rows: no other byte changes.
ghost use Rattle.std.specs.Prelude.{◌≡◌, false, length};
ghost use Rattle.basics.specs.Below.{any_below};
ghost use Rattle.shown.specs.Lengths.{forty_bytes, picture_bytes};
ghost use Rattle.shown.specs.Modes.{is_eighty, column_bytes};
ghost use Rattle.page.specs.Marks.{is_marked, marked_rows};
ghost use Rattle.picture.specs.Redraws.{redrawn};

use crate::eighty_rows::redraw_eighty;
use halves::half::{lower_halves_after, right_halves_of};
use page::code::row_buffer;
use rows::row::draw_row;
use shown::length::ROW_BYTES;
use shown::page::Scene;

// Some row is marked.
fn some_marked(marks: [bool; 25]) -> bool
    ensures { result ≡ any_below (is_marked marks) 25 }
{
    marks.contains(&true)
}

// Row by row, in 40 columns. The lower halves of a row that was just drawn are kept for the row below it. That is a
// state which 80 columns (`redraw_eighty`) have not: of a closure that changes what it captures a loop over both
// modes would know nothing, so each mode walks its rows. A row's part is cut out by its place, since the library's
// `chunks_exact_mut` does not say what the slice ends as.
fn redraw_rows(picture: &mut [u8], scene: &Scene, marks: [bool; 25]) -> usize
    requires { (length picture.old ≡ picture_bytes forty_bytes) × (is_eighty scene.now.page.shown ≡ false) }
    ensures { (picture.new ≡ redrawn marks picture.old scene.now.page.memory.now scene.now.rom.now scene.now.page.shown) × (result ≡ marked_rows marks 25) }
{
    let mut rows = 0;
    let mut above = None;
    for (r, marked) in marks.iter().enumerate() {
        if !*marked {
            above = None;
            continue;
        }
        let here = row_buffer(&scene.page, r as u8);
        let lowers = lower_halves_after(&scene.page, r as u8, above);
        let rights = right_halves_of(&scene.page, r as u8, here);
        draw_row(
            &mut picture[ROW_BYTES * r..ROW_BYTES * r + ROW_BYTES],
            scene,
            here,
            lowers,
            rights,
        );
        above = Some(lowers);
        rows += 1;
    }
    rows
}

// Returns the number of marked rows. Most draws of a panel that waits find none, and are done at once.
pub fn redraw(picture: &mut [u8], scene: &Scene, marks: [bool; 25]) -> usize
    requires { length picture.old ≡ picture_bytes (column_bytes scene.now.page.shown) }
    ensures { (picture.new ≡ redrawn marks picture.old scene.now.page.memory.now scene.now.rom.now scene.now.page.shown) × (result ≡ marked_rows marks 25) }
{
    if !some_marked(marks) {
        return 0;
    }
    if scene.page.shown.is_eighty() {
        return redraw_eighty(picture, scene, marks);
    }
    redraw_rows(picture, scene, marks)
}
