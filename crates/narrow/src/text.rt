// The ten bytes of a character of G0.
ghost use Rattle.std.specs.Prelude.{◌≡◌, length, get_or, ◌<◌, ◌≤◌, ◌%◌, eqb};
ghost use Rattle.basics.specs.Parts.{table};
ghost use Rattle.narrow.specs.HowTens.{shaded_of, narrow_ten};
ghost use Rattle.narrow.specs.HowText.{hidden};

use crate::pair::Narrow;
use shown::Shown;
use std::array;

// Six bits of a slice, inverted or not, and D, the lowest bit of the attributes.
fn shaded(slice: u8, negative: bool, attributes: u8) -> u8
    ensures { result ≡ shaded_of slice negative (eqb (attributes % 2) 1) }
{
    if negative {
        return 63 - slice % 64 + attributes % 2 * 64;
    }
    slice % 64 + attributes % 2 * 64
}

// Each of ten slices so.
fn shaded_ten(slices: &[u8], negative: bool, attributes: u8) -> [u8; 10]
    requires { length slices.now ≡ 10 }
    ensures { result ≡ table (λ n. shaded_of (get_or slices.now n 0) negative (eqb (attributes % 2) 1)) 10 }
{
    array::from_fn(|n| shaded(slices[n], negative, attributes))
}

// Flash makes every bit 0 now.
fn is_hidden(shown: Shown, cell: Narrow) -> bool
    ensures { result ≡ hidden cell shown }
{
    cell.attributes / 4 % 2 == 1
        && shown.pat / 64 % 2 == 1
        && shown.phase != cell.attributes / 8 % 2
}

pub fn text_ten(rom: &[u8], shown: Shown, cell: Narrow) -> [u8; 10]
    requires { (1280 ≤ length rom.now) × (cell.character < 128) }
    ensures { result ≡ narrow_ten rom.now shown cell }
{
    let negative = cell.attributes / 8 % 2 == 1;
    if is_hidden(shown, cell) {
        let none = shaded(0, negative, cell.attributes);
        return [none; 10];
    }
    let first = cell.character as usize * 10;
    let mut ten = shaded_ten(&rom[first..first + 10], negative, cell.attributes);
    if cell.attributes / 2 % 2 == 1 {
        ten[9] = shaded(255, negative, cell.attributes);
    }
    ten
}
