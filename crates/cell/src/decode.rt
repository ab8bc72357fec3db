// The cell of three code bytes C, B, A.
ghost use Rattle.std.specs.Prelude.{◌≡◌, not, ◌&&◌, get_or};
ghost use Rattle.basics.specs.Bits.{is_set};
ghost use Rattle.cell.specs.Cells.{ef9345_set, ts9347_set, set_of, alphanumeric_of, are_both_set, resolution_of, bichrome_of, quadrichrome_of, cell_of};
ghost use Rattle.cell.specs.HowCells.{last_bichrome};

use crate::kind::{BichromeCell, Cell, QuadrichromeCell, Resolution, Set};
use board::Part;
use colour::Colour;

// The set that B7..B4 name, of a bichrome cell of an EF9345.
#[tactic(auto, unfolding(crate::specs::Cells::ef9345_set))]
fn ef9345_set(high: u8) -> Set
    ensures { result ≡ ef9345_set high }
{
    match high {
        0..=1 => Set::G0,
        2 => Set::G10,
        3 => Set::G11,
        4..=5 => Set::G20,
        6..=7 => Set::G21,
        8..=9 => Set::UserG0,
        _ => Set::UserG1(high % 2),
    }
}

// The set that B names, of a TS9347. B6 is looked at where B7 is set alone.
#[tactic(auto, unfolding(crate::specs::Cells::ts9347_set))]
fn ts9347_set(b: u8) -> Set
    ensures { result ≡ ts9347_set b }
{
    match b {
        0..=127 => match b / 16 % 4 {
            0..=1 => Set::G0,
            3 => Set::Goe,
            _ => Set::G10,
        },
        128..=159 => Set::UserG0,
        160..=191 => Set::UserG1(b / 16 % 2),
        _ => Set::Q(b / 8 % 8),
    }
}

pub fn set_of(part: Part, b: u8) -> Set
    ensures { result ≡ set_of part b }
{
    match part {
        Part::Ef9345 => ef9345_set(b / 16),
        Part::Ts9347 => ts9347_set(b),
    }
}

// (A line for each set, and no `matches!`: a set that is added must be sorted here, and the prover shows a wrong
// line by its set.)
pub fn is_alphanumeric(set: Set) -> bool
    ensures { result ≡ alphanumeric_of set }
{
    match set {
        Set::G0 => true,
        Set::G10 => false,
        Set::G11 => false,
        Set::G20 => true,
        Set::G21 => true,
        Set::Goe => false,
        Set::UserG0 => true,
        Set::UserG1(_) => false,
        Set::Q(_) => false,
    }
}

// B4 is U, the underline, in the alphanumeric sets alone.
pub fn is_underlined(set: Set, b: u8) -> bool
    ensures { result ≡ (alphanumeric_of set && is_set 4 b) }
{
    is_alphanumeric(set) && b / 16 % 2 == 1
}

#[tactic(auto, unfolding(crate::specs::Cells::resolution_of))]
pub fn resolution_of(b: u8) -> Resolution
    ensures { result ≡ resolution_of b }
{
    if b / 2 % 2 == 1 {
        Resolution::Low(b / 4 % 2)
    } else {
        Resolution::High
    }
}

// B3 is double width, where bits 7 and 6 are not both set.
fn is_wide(b: u8) -> bool
    ensures { result ≡ (not (are_both_set b) && is_set 3 b) }
{
    b < 192 && b / 8 % 2 == 1
}

#[tactic(auto, unfolding(crate::specs::Cells::bichrome_of))]
pub fn bichrome(part: Part, c: u8, b: u8, a: u8) -> BichromeCell
    ensures { result ≡ bichrome_of part c b a }
{
    let set = set_of(part, b);
    let underline = is_underlined(set, b);
    let foreground = Colour::from_number(a / 16);
    let background = Colour::from_number(a);
    BichromeCell {
        character: c,
        set,
        underline,
        wide: is_wide(b),
        conceal: b / 4 % 2 == 1,
        tall: b / 2 % 2 == 1,
        negative: a / 128 % 2 == 1,
        foreground,
        flash: a / 8 % 2 == 1,
        background,
    }
}

#[tactic(auto, unfolding(crate::specs::Cells::quadrichrome_of))]
pub fn quadrichrome(c: u8, b: u8, a: u8) -> QuadrichromeCell
    ensures { result ≡ quadrichrome_of c b a }
{
    QuadrichromeCell {
        character: c,
        block: b / 8 % 8,
        resolution: resolution_of(b),
        palette: a,
    }
}

// The last B of a bichrome cell: from 192 on bits 7 and 6 are both set.
#[tactic(auto, unfolding(crate::specs::HowCells::last_bichrome))]
pub fn last_bichrome(part: Part) -> u8
    ensures { result ≡ last_bichrome part }
{
    match part {
        Part::Ef9345 => 191,
        Part::Ts9347 => 255,
    }
}

// A code byte each: C, B, A.
pub fn decode(part: Part, code: [u8; 3]) -> Cell
    ensures { result ≡ cell_of part (get_or code 0 0) (get_or code 1 0) (get_or code 2 0) }
{
    let [c, b, a] = code;
    if b <= last_bichrome(part) {
        Cell::Bichrome(bichrome(part, c, b, a))
    } else {
        Cell::Quadrichrome(quadrichrome(c, b, a))
    }
}
