// What a page is drawn from. That its bytes are bytes is written out, since a proof does not know it of what stands
// behind two references.
ghost use Rattle.std.specs.Prelude.{◌≡◌, ◌<◌, length};
ghost use Rattle.board.specs.Boards.{bytes_of};
ghost use Rattle.shown.specs.Lengths.{rom_bytes};
ghost use Rattle.shown.specs.Bytes.{AreBytes};

use crate::Shown;

// Private memory, and what the page is drawn by.
#[derive(Clone, Copy)]
pub struct Page<'a> {
    pub memory: &'a [u8],
    pub shown: Shown,
    // The bytes of all its blocks, and no more.
    ghost memory_whole: { length memory.now ≡ bytes_of shown.blocks },
    ghost memory_of_bytes: { AreBytes memory.now },
    ghost blocks_in_a_byte: { shown.blocks < 256 },
}

// The same, with the character ROM.
#[derive(Clone, Copy)]
pub struct Scene<'a> {
    pub page: Page<'a>,
    pub rom: &'a [u8],
    // All the bytes of the part's ROM, and no more.
    ghost rom_whole: { length rom.now ≡ rom_bytes page.shown.part },
    ghost rom_of_bytes: { AreBytes rom.now },
}
