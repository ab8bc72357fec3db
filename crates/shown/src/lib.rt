// What a page is drawn by: the indirect registers, the phase and the board as one record, and what is said of it alone.
#![tactic(auto)]

pub mod length;
pub mod page;

ghost use Rattle.std.specs.Prelude.{◌≡◌};
ghost use Rattle.basics.specs.Choice.{pick};
ghost use Rattle.shown.specs.Modes.{is_eighty, column_bytes};
ghost use Rattle.shown.specs.Lengths.{rom_bytes, picture_bytes};
ghost use Rattle.shown.specs.Origins.{yor_of, highest_bit, first_block};
ghost use Rattle.shown.specs.Refusals.{refused7, refused8, can_draw};

use crate::length::{EIGHTY_PICTURE_BYTES, PICTURE_BYTES, ROM_BYTES, TS9347_ROM_BYTES};
use board::Part;

#[derive(Clone, Copy)]
pub struct Shown {
    pub part: Part,
    pub tgs: u8,
    pub mat: u8,
    pub pat: u8,
    pub dor: u8,
    pub ror: u8,
    pub phase: u8,
    // The board: how many blocks are fitted, and its part.
    pub blocks: u8,
}

impl Shown {
    // TGS bits 7 and 6 both set, of an EF9345. TGS is asked first: in 40 columns it tells by itself.
    pub fn is_eighty(self) -> bool
        ensures { result ≡ is_eighty self }
    {
        let both_set = 192 <= self.tgs;
        both_set && self.part == Part::Ef9345
    }

    // The length that 5 asks for.
    pub fn rom_asked(self) -> usize
        ensures { result ≡ rom_bytes self.part }
    {
        match self.part {
            Part::Ef9345 => ROM_BYTES,
            Part::Ts9347 => TS9347_ROM_BYTES,
        }
    }

    // The length that 6 asks for, that of the mode; none where 7 comes first.
    pub fn picture_asked(self) -> Option<usize>
        ensures { result ≡ pick (refused7 self) None (Some (picture_bytes (column_bytes self))) }
    {
        if 128 <= self.pat {
            return None;
        }
        match (self.tgs / 32, self.part) {
            (0, _) => Some(PICTURE_BYTES),
            (6, Part::Ef9345) => Some(EIGHTY_PICTURE_BYTES),
            _ => None,
        }
    }

    // The origin, ROR bits 4..0.
    pub fn yor(self) -> u8
        ensures { result ≡ yor_of self }
    {
        self.ror % 32
    }

    // Z4 of the first block: DOR 7, of a TS9347.
    fn z4(self) -> u8
        ensures { result ≡ highest_bit self.part self.dor }
    {
        match self.part {
            Part::Ef9345 => 0,
            Part::Ts9347 => self.dor / 128,
        }
    }

    // The first block of the page.
    pub fn first_block(self) -> u8
        ensures { result ≡ first_block self }
    {
        16 * self.z4() + self.ror / 32 * 2
    }

    pub fn is_refused_7(self) -> bool
        ensures { result ≡ refused7 self }
    {
        self.picture_asked().is_none()
    }

    pub fn is_refused_8(self) -> bool
        ensures { result ≡ refused8 self }
    {
        self.yor() < 8
    }

    // A draw would get neither 7 nor 8.
    #[tactic(auto, unfolding(crate::specs::Refusals::can_draw))]
    pub fn can_draw(self) -> bool
        ensures { result ≡ can_draw self }
    {
        !self.is_refused_7() && !self.is_refused_8()
    }
}
