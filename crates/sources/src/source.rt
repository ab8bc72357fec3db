// Where a cell's slices come from, and the ten of them.
ghost use Rattle.std.specs.Prelude.{◌≡◌, ◌+◌, ◌*◌, ◌/◌, ◌%◌, ◌<◌, ◌≤◌, length, get_or};
ghost use Rattle.basics.specs.Parts.{table};
ghost use Rattle.board.specs.Boards.{bytes_of};
ghost use Rattle.address.specs.Places.{place_at, byte_at};
ghost use Rattle.address.specs.Slices.{slice_at};
ghost use Rattle.shown.specs.Lengths.{rom_bytes};
ghost use Rattle.cell.specs.Cells.{cell_of};
ghost use Rattle.sources.specs.Sources.{cell_source, kept_slice, rom_slice, slices_of};
ghost use Rattle.sources.specs.HowSources.{sets_from, set_number, user_block};

use address::place::place_at;
use address::triple::is_legal_y;
use board::Part;
use shown::Shown;
use shown::page::{Page, Scene};
use std::array;

#[derive(Clone, Copy)]
pub enum Source {
    // A ROM set, by its place in the ROM.
    Rom(u8),
    // A block of private memory.
    Block(u8),
}

// The ROM sets that B6..B4 name: of an EF9345 in the order G0, G10, G11, G20, G21, and then of a TS9347 in the order G10, GOE, G0.
const SETS: [u8; 16] = [0, 0, 1, 2, 3, 3, 4, 4, 2, 2, 0, 1, 2, 2, 0, 1];

// Where the table has a part's sets.
fn sets_of(part: Part) -> u8
    ensures { result ≡ sets_from part }
{
    match part {
        Part::Ef9345 => 0,
        Part::Ts9347 => 8,
    }
}

// The ROM set of B below 128, by its place in the ROM.
pub fn rom_set(part: Part, b: u8) -> u8
    ensures { result ≡ set_number part (b / 16 % 8) }
{
    SETS[(sets_of(part) + b / 16 % 8) as usize]
}

// The block of B from 128 on, in which the parts do not differ: that of user G'0, of user G'1 or of user Q.
fn user_block(dor: u8, b: u8) -> u8
    ensures { result ≡ user_block dor b }
{
    if b < 160 {
        return dor % 16;
    }
    if b < 192 {
        return dor / 16 % 8 * 2 + b / 16 % 2;
    }
    dor / 128 * 8 + b / 8 % 8
}

// The source of the cell of a code: by B and DOR alone.
pub fn source_of(shown: Shown, code: [u8; 3]) -> Source
    ensures { result ≡ cell_source shown (cell_of shown.part (get_or code 0 0) (get_or code 1 0) (get_or code 2 0)) }
{
    let b = code[1];
    if b < 128 {
        let part = shown.part;
        return Source::Rom(rom_set(part, b));
    }
    Source::Block(user_block(shown.dor, b))
}

// The ten slices of a character in a block that is fitted.
fn fitted_slices(page: &Page, c: u8, z: u8) -> [u8; 10]
    requires { z < page.now.shown.blocks }
    ensures { result ≡ table (λ n. byte_at page.now.memory.now (place_at (slice_at c n z))) 10 }
{
    let memory = page.memory;
    array::from_fn(
        |n|
            requires { (n < 10) × (1024 * z + 1024 ≤ length memory.now) }
            ensures { result ≡ byte_at memory.entry.now (place_at (slice_at c n z)) }
        { memory[place_at(n as u16 * 4 + c as u16 % 4, c as u16 / 4 % 32, z as u16)] },
    )
}

// The ten slices of a character in private memory: 0 where no byte is read. They have one Y and one block, so that
// one test of each tells it for all
// of them.
pub fn kept_slices(page: &Page, c: u8, z: u8) -> [u8; 10]
    ensures { result ≡ table (kept_slice page.now.shown.blocks page.now.memory.now c z) 10 }
{
    if !is_legal_y(c / 4 % 32) {
        return [0; 10];
    }
    if page.shown.blocks <= z {
        return [0; 10];
    }
    fitted_slices(page, c, z)
}

// The ten slices of a character stand side by side in the ROM.
pub fn rom_slices(rom: &[u8], c: u8, set: u8) -> [u8; 10]
    requires { 1280 * set + 1280 ≤ length rom.now }
    ensures { result ≡ table (rom_slice rom.now c set) 10 }
{
    let first = set as usize * 1280 + (c % 128) as usize * 10;
    let mut slices = [0; 10];
    slices.copy_from_slice(&rom[first..first + 10]);
    slices
}

// The ten slices of the cell of a code.
pub fn slices_of(scene: &Scene, code: [u8; 3]) -> [u8; 10]
    ensures { result ≡ table (slices_of scene.now.page.memory.now scene.now.rom.now scene.now.page.shown
        (cell_of scene.now.page.shown.part (get_or code 0 0) (get_or code 1 0) (get_or code 2 0))) 10 }
{
    let c = code[0];
    match source_of(scene.page.shown, code) {
        Source::Rom(set) => rom_slices(scene.rom, c, set),
        Source::Block(z) => kept_slices(&scene.page, c, z),
    }
}
