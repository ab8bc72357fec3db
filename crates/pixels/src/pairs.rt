// What is the same for all ten lines of a cell, worked out once: a packed pair of pixels for each two bits of a slice.
ghost use Rattle.std.specs.Prelude.{◌≡◌, not, eqb};
ghost use Rattle.basics.specs.Choice.{one_if};
ghost use Rattle.colour.specs.Colours.{packed_of};
ghost use Rattle.pixels.specs.Pixels.{concealed, flashed, inverted, inked, dyed};
ghost use Rattle.pixels.specs.HowPairs.{bichrome_pairs, quadrichrome_pairs, cell_pairs};

use cell::kind::{BichromeCell, Cell};
use colour::palette::by_rank;
use colour::{Colour, packed};
use shown::Shown;

// Conceal with PAT 3 makes a pixel's bit 0.
#[tactic(auto, unfolding(crate::specs::Pixels::concealed))]
pub fn conceal(cell: BichromeCell, shown: Shown, bit: bool) -> bool
    ensures { result ≡ concealed cell shown bit }
{
    bit && !(cell.conceal && shown.pat / 8 % 2 == 1)
}

// The phase differs from the negative bit.
fn differs(phase: u8, negative: bool) -> bool
    ensures { result ≡ not (eqb phase (one_if negative)) }
{
    phase != u8::from(negative)
}

// Flash with PAT 6 makes it 0 when the phase differs from the negative bit. (By `&`: of `&&` a proof has a way for
// each test.)
pub fn flash(cell: BichromeCell, shown: Shown, bit: bool) -> bool
    ensures { result ≡ flashed cell shown bit }
{
    let differs = differs(shown.phase, cell.negative);
    bit & !(cell.flash & (shown.pat / 64 % 2 == 1) & differs)
}

// Negative inverts it.
#[tactic(auto, unfolding(crate::specs::Pixels::inverted))]
pub fn invert(cell: BichromeCell, bit: bool) -> bool
    ensures { result ≡ inverted cell bit }
{
    bit != cell.negative
}

// 1 is foreground, 0 background.
#[tactic(auto, unfolding(crate::specs::Pixels::inked))]
pub fn ink(cell: BichromeCell, bit: bool) -> Colour
    ensures { result ≡ inked cell bit }
{
    if bit {
        cell.foreground
    } else {
        cell.background
    }
}

// The colour of a pixel from its bit after underlining: the rest of the page's steps, in their order.
pub fn dye(cell: BichromeCell, shown: Shown, bit: bool) -> Colour
    ensures { result ≡ dyed cell shown bit }
{
    ink(
        cell,
        invert(cell, flash(cell, shown, conceal(cell, shown, bit))),
    )
}

#[tactic(auto, unfolding(crate::specs::HowPairs::bichrome_pairs, basics::specs::Parts::joined))]
pub fn bichrome_pairs(cell: BichromeCell, shown: Shown) -> [u8; 4]
    ensures { result ≡ bichrome_pairs cell shown }
{
    let off = dye(cell, shown, false);
    let on = dye(cell, shown, true);
    [
        packed(off, off),
        packed(on, off),
        packed(off, on),
        packed(on, on),
    ]
}

// Both pixels of a pair have one colour.
fn both(colour: Colour) -> u8
    ensures { result ≡ packed_of colour colour }
{
    packed(colour, colour)
}

// A pair for each rank, so that two bits of a slice need only be looked up.
pub fn quadrichrome_pairs(palette: u8) -> [u8; 4]
    ensures { result ≡ quadrichrome_pairs palette }
{
    let [first, second, third, fourth] = by_rank(palette);
    [both(first), both(second), both(third), both(fourth)]
}

pub fn cell_pairs(cell: Cell, shown: Shown) -> [u8; 4]
    ensures { result ≡ cell_pairs cell shown }
{
    match cell {
        Cell::Bichrome(b) => bichrome_pairs(b, shown),
        Cell::Quadrichrome(q) => quadrichrome_pairs(q.palette),
    }
}
