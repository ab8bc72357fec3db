// The ten bytes of a cell, one for each of its lines.
ghost use Rattle.std.specs.Prelude.{◌≡◌, ◌≤◌, length};
ghost use Rattle.narrow.specs.HowTens.{narrow_ten};

use crate::mosaic::mosaic_ten;
use crate::pair::Narrow;
use crate::text::text_ten;
use shown::Shown;

// C7 tells a mosaic from a character.
pub fn ten_of(rom: &[u8], shown: Shown, cell: Narrow) -> [u8; 10]
    requires { 1280 ≤ length rom.now }
    ensures { result ≡ narrow_ten rom.now shown cell }
{
    if 128 <= cell.character {
        return mosaic_ten(cell);
    }
    text_ten(rom, shown, cell)
}
