// Ranks: the palette of a quadrichrome cell, and which of its colours a rank names.
ghost use Rattle.std.specs.Prelude.{◌≡◌};
ghost use Rattle.basics.specs.Bits.{is_set};
ghost use Rattle.basics.specs.Parts.{table};
ghost use Rattle.colour.specs.Colours.{nibble_of};
ghost use Rattle.colour.specs.Ranks.{rank_of, colour_of_rank};

use crate::Colour;

// Whether the palette has the colour.
pub fn has(palette: u8, colour: Colour) -> bool
    ensures { result ≡ is_set (nibble_of colour) palette }
{
    let k = colour.nibble();
    (palette >> k) % 2 == 1
}

// The rank of a colour: the ones of the palette byte below the colour's bit.
pub fn rank(palette: u8, colour: Colour) -> u32
    ensures { result ≡ rank_of palette colour }
{
    let k = colour.nibble();
    (palette % (1 << k)).count_ones()
}

// The colours of ranks 0 to 3, in one pass over the palette from its highest bit down. A colour of one of these ranks comes before all that
// were found, since their ranks are higher; where fewer than four are found the rest is white. No place is worked out from a rank, so that a
// loop over the cells of a row becomes vector instructions.
pub fn by_rank(palette: u8) -> [Colour; 4]
    ensures { result ≡ table (colour_of_rank palette) 4 }
{
    let mut colours = [Colour::WHITE; 4];
    for k in (0..8).rev() {
        let colour = Colour::from_number(k);
        if has(palette, colour) && rank(palette, colour) < 4 {
            colours = [colour, colours[0], colours[1], colours[2]];
        }
    }
    colours
}
