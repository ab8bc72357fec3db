// The ten bytes of a mosaic.
ghost use Rattle.std.specs.Prelude.{◌≡◌, ◌%◌, eqb};
ghost use Rattle.narrow.specs.HowTens.{windows_of, mosaic_ten};

use crate::pair::Narrow;

// Two windows side by side, and D, by the lowest bit of each number.
fn windows(left: u8, right: u8, d: u8) -> u8
    ensures { result ≡ windows_of (eqb (left % 2) 1) (eqb (right % 2) 1) (eqb (d % 2) 1) }
{
    left % 2 * 7 + right % 2 * 56 + d % 2 * 64
}

// Each window is two lines high.
pub fn mosaic_ten(cell: Narrow) -> [u8; 10]
    ensures { result ≡ mosaic_ten cell }
{
    let c = cell.character;
    let a = cell.attributes;
    let first = windows(c, c / 2, a);
    let second = windows(c / 4, c / 8, a);
    let third = windows(c / 16, c / 32, a);
    let fourth = windows(c / 64, a / 2, a);
    let fifth = windows(a / 4, a / 8, a);
    [
        first, first, second, second, third, third, fourth, fourth, fifth, fifth,
    ]
}
