// The answers: each is a Result, and its error is a refusal. The page gives an answer a number, 0 where nothing is
// refused, and a value.
ghost use Rattle.std.specs.Prelude.{◌≡◌, ◌<◌, ℕ, Err};
ghost use Rattle.command.specs.Answers.{number_of, value_of, power_number_of, draw_number_of, rows_of};
ghost use Rattle.command.specs.declared.answer.BoardRefusal.{BoardRefusal};

use board::UnknownPart;

// Of an access, a phase change or a step, with the value where it has one.
pub type Answer = Result<u8, Refusal>;

#[derive(Clone, Copy, Debug, PartialEq, Eq)]
pub enum Refusal {
    // 1: private memory is not 1,024 bytes for each block of the board.
    WrongMemory,
    // 2: the address's high four bits are not 2.
    WrongAddress,
    // 3: a command to execute is not listed.
    NotListed(u8),
    // 4: its pointer, either pointer of a move, has X above 39 or Y from 1 to 7.
    BadPointer(u8),
    // 9: phase is not 0 or 1.
    WrongPhase,
    // 10: a move runs, and the access is neither a status read at a lower address nor a NOP written to R0 at an upper one.
    Busy,
    // 11: one of its bytes lies in a block that is not fitted.
    NotFitted(u8),
}

// Of a power-up.
pub type PowerUp = Result<(), BoardRefusal>;

#[derive(Clone, Copy, Debug, PartialEq, Eq)]
pub enum BoardRefusal {
    // 12: the number of blocks is not 2, 8 or 16, or 32 of a TS9347.
    WrongBoard,
    // 14: the part is neither an EF9345 nor a TS9347.
    UnknownPart,
}

impl From<UnknownPart> for BoardRefusal {
    ghost from_gives = { λ error refusal. refusal ≡ BoardRefusal.UnknownPart };

    fn from(_error: UnknownPart) -> BoardRefusal {
        BoardRefusal::UnknownPart
    }
}

// Of a draw, with the number of rows.
pub type Drawing = Result<usize, DrawRefusal>;

#[derive(Clone, Copy, Debug, PartialEq, Eq)]
pub enum DrawRefusal {
    // 1: private memory is not 1,024 bytes for each block of the board.
    WrongMemory,
    // 5: ROM is not 6,400 bytes, or 3,840 of a TS9347.
    WrongRom,
    // 6: picture is not 40,000 bytes, or 60,000 in 80 columns.
    WrongPicture,
    // 7: TGS bits 7, 6 or 5, or PAT bit 7, not zero; with TGS 7 and 6 both set, TGS 5 or PAT 7.
    NotBuilt,
    // 8: origin YOR below 8.
    LowOrigin,
}

impl Refusal {
    fn number(self) -> u8
        ensures { result ≡ number_of (Err self) }
    {
        match self {
            Self::WrongMemory => 1,
            Self::WrongAddress => 2,
            Self::NotListed(_) => 3,
            Self::BadPointer(_) => 4,
            Self::WrongPhase => 9,
            Self::Busy => 10,
            Self::NotFitted(_) => 11,
        }
    }

    // What an access had read stands beside a refusal of its command too.
    fn value(self) -> u8
        ensures { result ≡ value_of (Err self) }
    {
        match self {
            Self::NotListed(v) => v,
            Self::BadPointer(v) => v,
            Self::NotFitted(v) => v,
            _ => 0,
        }
    }
}

impl BoardRefusal {
    fn number(self) -> u8
        ensures { result ≡ power_number_of (Err self) }
    {
        match self {
            Self::WrongBoard => 12,
            Self::UnknownPart => 14,
        }
    }
}

impl DrawRefusal {
    fn number(self) -> u8
        ensures { result ≡ draw_number_of (Err self) }
    {
        match self {
            Self::WrongMemory => 1,
            Self::WrongRom => 5,
            Self::WrongPicture => 6,
            Self::NotBuilt => 7,
            Self::LowOrigin => 8,
        }
    }
}

// An answer as the page tells it.
pub trait Numbered {
    ghost numbered: { Self → ℕ };

    ghost valued: { Self → ℕ };

    fn number(self) -> u8
        ensures { result ≡ numbered self };

    fn value(self) -> usize
        ensures { result ≡ valued self };
}

impl Numbered for Answer {
    ghost numbered = { number_of };

    ghost valued = { value_of };

    fn number(self) -> u8 {
        match self {
            Ok(_) => 0,
            Err(refusal) => refusal.number(),
        }
    }

    fn value(self) -> usize
        ensures value { result ≡ value_of self }
        ensures byte { result < 256 }
    {
        match self {
            Ok(v) => usize::from(v),
            Err(refusal) => usize::from(refusal.value()),
        }
    }
}

impl Numbered for PowerUp {
    ghost numbered = { power_number_of };

    ghost valued = { λ answer. 0 };

    fn number(self) -> u8 {
        match self {
            Ok(_) => 0,
            Err(refusal) => refusal.number(),
        }
    }

    fn value(self) -> usize {
        0
    }
}

impl Numbered for Drawing {
    ghost numbered = { draw_number_of };

    ghost valued = { rows_of };

    fn number(self) -> u8 {
        match self {
            Ok(_) => 0,
            Err(refusal) => refusal.number(),
        }
    }

    fn value(self) -> usize {
        self.unwrap_or(0)
    }
}
