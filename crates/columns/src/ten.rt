// The ten bytes of a cell, one for each of its lines: the slice that the line shows, and of it the half that is shown.
ghost use Rattle.std.specs.Prelude.{◌≡◌, ◌<◌, length};
ghost use Rattle.basics.specs.Parts.{table};
ghost use Rattle.page.specs.Inputs.{decoded};
ghost use Rattle.columns.specs.HowTens.{doubled_of, ten_of, tens_of};

use crate::column::put_column;
use crate::plain::is_plain;
use page::code::is_wide;
use pixels::width::doubled;
use shown::page::Scene;
use slices::slice::shown_slices;
use sources::source::{rom_set, rom_slices, slices_of};
use std::array;

// Of each of ten slices the half that is shown.
pub fn doubled_slices(right: bool, slices: [u8; 10]) -> [u8; 10]
    ensures { result ≡ table (doubled_of slices right) 10 }
{
    array::from_fn(|n| doubled(right, slices[n]))
}

// Each line of a plain cell, as most cells of a page of text are, shows the whole slice of its own number, which is
// in the ROM.
pub fn ten_of(scene: &Scene, code: [u8; 3], lower: bool, right: bool) -> [u8; 10]
    ensures { result ≡ ten_of scene.now.page.memory.now scene.now.rom.now scene.now.page.shown (decoded scene.now.page.shown.part code) lower right }
{
    let part = scene.page.shown.part;
    if is_plain(code[1]) {
        return rom_slices(scene.rom, code[0], rom_set(part, code[1]));
    }
    let ten = shown_slices(part, code, lower, slices_of(scene, code));
    if is_wide(code) {
        return doubled_slices(right, ten);
    }
    ten
}

// The ten bytes of each cell of a row, line after line. Three arrays are read at x: a zip of the three is no plainer.
pub fn tens_of(
    scene: &Scene,
    cells: [[u8; 3]; 40],
    lowers: [bool; 40],
    rights: [bool; 40],
) -> [u8; 400]
    ensures { result ≡ tens_of scene.now.page.memory.now scene.now.rom.now scene.now.page.shown cells lowers rights }
{
    let mut tens = [0; 400];
    for x in 0..40 {
        put_column(&mut tens, x, &ten_of(scene, cells[x], lowers[x], rights[x]));
    }
    tens
}
