// Which slice a line of a bichrome cell shows, and where it is underlined.
ghost use Rattle.std.specs.Prelude.{◌≡◌, ◌<◌};
ghost use Rattle.pixels.specs.Slices.{slice_of_twenty, bichrome_slice};
ghost use Rattle.pixels.specs.HowPairs.{underlined_on};

use cell::decode::is_alphanumeric;
use cell::kind::{BichromeCell, Cell};

// The slice of one of the twenty lines of a double height cell.
#[tactic(auto, unfolding(crate::specs::Slices::slice_of_twenty))]
pub fn slice_of_twenty(alphanumeric: bool, line: u8) -> u8
    requires { line < 20 }
    ensures { result ≡ slice_of_twenty alphanumeric line }
{
    if alphanumeric {
        line.saturating_sub(1) / 2
    } else {
        line / 2
    }
}

// Line n of a bichrome cell, which shows its upper or its lower half.
#[tactic(auto, unfolding(crate::specs::Slices::bichrome_slice))]
pub fn bichrome_slice(cell: BichromeCell, lower: bool, n: u8) -> u8
    requires { n < 10 }
    ensures { result ≡ bichrome_slice cell lower n }
{
    if !cell.tall {
        return n;
    }
    let line = if lower { 10 + n } else { n };
    slice_of_twenty(is_alphanumeric(cell.set), line)
}

// Where the line shows slice 9 the cell's underline is.
#[tactic(auto, unfolding(crate::specs::HowPairs::underlined_on))]
pub fn is_underlined_on(cell: Cell, lower: bool, n: u8) -> bool
    requires { n < 10 }
    ensures { result ≡ underlined_on cell lower n }
{
    match cell {
        Cell::Bichrome(b) => b.underline && bichrome_slice(b, lower, n) == 9,
        Cell::Quadrichrome(_) => false,
    }
}
