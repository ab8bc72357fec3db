// The board: its part, and how many blocks its private memory has, and so how many bytes.
#![tactic(auto)]

ghost use Rattle.std.specs.Prelude.{◌≡◌};
ghost use Rattle.board.specs.Boards.{part_named, part_number, is_board, bytes_of};
ghost use Rattle.board.specs.Numbers.{Names};

#[derive(Clone, Copy, Debug, PartialEq, Eq)]
pub enum Part {
    Ef9345,
    Ts9347,
}

// A number that no part has.
#[derive(Clone, Copy, Debug, PartialEq, Eq)]
pub struct UnknownPart(pub u8);

// The board of which nothing else is said: an EF9345 with all its blocks.
pub const BLOCKS: u8 = 16;

pub const MEMORY_BYTES: usize = 1024 * 16;

// A TS9347's board, of which there is one.
pub const TS9347_BLOCKS: u8 = 32;

pub const TS9347_MEMORY_BYTES: usize = 1024 * 32;

// Whatever the number is: one that no part has counts as a TS9347's. `try_from` refuses it.
pub fn part_named(number: u8) -> Part
    ensures { result ≡ part_named number }
{
    match number {
        0 => Part::Ef9345,
        _ => Part::Ts9347,
    }
}

impl TryFrom<u8> for Part {
    type Error = UnknownPart;

    ghost try_from_gives = { Names };

    fn try_from(number: u8) -> Result<Self, UnknownPart> {
        match number {
            0 => Ok(Part::Ef9345),
            1 => Ok(Part::Ts9347),
            _ => Err(UnknownPart(number)),
        }
    }
}

impl From<Part> for u8 {
    ghost from_gives = { λ part number. number ≡ part_number part };

    fn from(part: Part) -> u8 {
        match part {
            Part::Ef9345 => 0,
            Part::Ts9347 => 1,
        }
    }
}

// 2, 8 or 16 blocks of an EF9345, 32 of a TS9347.
pub fn is_board(part: Part, blocks: u8) -> bool
    ensures { result ≡ is_board part blocks }
{
    match part {
        Part::Ef9345 => matches!(blocks, 2 | 8 | 16),
        Part::Ts9347 => blocks == 32,
    }
}

pub fn bytes_of(blocks: u8) -> usize
    ensures { result ≡ bytes_of blocks }
{
    1024 * blocks as usize
}
