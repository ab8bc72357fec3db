// The eight colours by name, packed pairs of them, and the palette of a quadrichrome cell.
#![tactic(auto)]

pub mod palette;

ghost use Rattle.std.specs.Prelude.{◌≡◌};
ghost use Rattle.colour.specs.Colours.{colour_of, nibble_of, packed_of};

#[derive(Clone, Copy, Debug, PartialEq, Eq)]
pub struct Colour(pub u8);

impl Colour {
    pub const BLACK: Colour = Colour(0);

    pub const RED: Colour = Colour(1);

    pub const GREEN: Colour = Colour(2);

    pub const YELLOW: Colour = Colour(3);

    pub const BLUE: Colour = Colour(4);

    pub const MAGENTA: Colour = Colour(5);

    pub const CYAN: Colour = Colour(6);

    pub const WHITE: Colour = Colour(7);

    // The colour of a number, by its low three bits.
    pub fn from_number(n: u8) -> Colour
        ensures { result ≡ colour_of n }
    {
        match n % 8 {
            0 => Colour::BLACK,
            1 => Colour::RED,
            2 => Colour::GREEN,
            3 => Colour::YELLOW,
            4 => Colour::BLUE,
            5 => Colour::MAGENTA,
            6 => Colour::CYAN,
            _ => Colour::WHITE,
        }
    }

    // The four bits that stand for the colour in a packed byte.
    pub fn nibble(self) -> u8
        ensures { result ≡ nibble_of self }
    {
        self.0 % 8
    }
}

// Two pixels in a byte.
pub fn packed(left: Colour, right: Colour) -> u8
    ensures { result ≡ packed_of left right }
{
    left.nibble() + right.nibble() * 16
}
