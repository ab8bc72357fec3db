// The command that a byte names, and the answers by number.
#![tactic(auto)]

pub mod answer;
pub mod held;

ghost use Rattle.std.specs.Prelude.{◌≡◌, IfSome};
ghost use Rattle.command.specs.Commands.{command_of, command_for, Asked};

use board::Part;

// The cases have no named fields: so the table below keeps a line for each of its bytes.
#[derive(Clone, Copy, Debug, PartialEq, Eq)]
pub enum Command {
    Nop,
    // r, and whether R1 is loaded from the register.
    Ind(u8, bool),
    // Whether it reads, and whether it increments.
    Krf(bool, bool),
    // Whether it reads, whether by the auxiliary pointer, and whether it increments.
    Oct(bool, bool, bool),
    // Whether it reads, and whether it increments.
    Krl(bool, bool),
    // How many bytes of a position it moves, whether from the auxiliary pointer, and whether it stops at the end of a row.
    Move(u8, bool, bool),
}

// None where the byte is not listed. Always compiled into its callers, as `command_for` is: as a call each command is
// handed over through memory, and what runs is looked up a second time.
#[inline(always)]
#[tactic(auto, unfolding(crate::specs::Commands::command_of))]
pub fn command_of(byte: u8) -> Option<Command>
    ensures named { result ≡ command_of byte }
    ensures asked { IfSome result Asked }
{
    match byte {
        0x00..=0x01 => Some(Command::Krf(false, byte == 0x01)),
        0x08..=0x09 => Some(Command::Krf(true, byte == 0x09)),
        0x30..=0x31 => Some(Command::Oct(false, false, byte == 0x31)),
        0x34..=0x35 => Some(Command::Oct(false, true, byte == 0x35)),
        0x38..=0x39 => Some(Command::Oct(true, false, byte == 0x39)),
        0x3C..=0x3D => Some(Command::Oct(true, true, byte == 0x3D)),
        0x50..=0x51 => Some(Command::Krl(false, byte == 0x51)),
        0x58..=0x59 => Some(Command::Krl(true, byte == 0x59)),
        0x81..=0x84 => Some(Command::Ind(byte - 0x80, false)),
        0x87 => Some(Command::Ind(7, false)),
        0x89..=0x8C => Some(Command::Ind(byte - 0x88, true)),
        0x8F => Some(Command::Ind(7, true)),
        0x90..=0x91 => Some(Command::Nop),
        0xD5..=0xD6 => Some(Command::Move(1, false, byte == 0xD5)),
        0xD9..=0xDA => Some(Command::Move(1, true, byte == 0xD9)),
        0xE5..=0xE6 => Some(Command::Move(2, false, byte == 0xE5)),
        0xE9..=0xEA => Some(Command::Move(2, true, byte == 0xE9)),
        0xF5..=0xF6 => Some(Command::Move(3, false, byte == 0xF5)),
        0xF9..=0xFA => Some(Command::Move(3, true, byte == 0xF9)),
        _ => None,
    }
}

// A TS9347 runs no KRL and no move.
#[inline(always)]
#[tactic(auto, unfolding(crate::specs::Commands::command_for))]
pub fn command_for(part: Part, byte: u8) -> Option<Command>
    ensures named { result ≡ command_for part byte }
    ensures asked { IfSome result Asked }
{
    let command = command_of(byte)?;
    match (part, command) {
        (Part::Ts9347, Command::Krl(..) | Command::Move(..)) => None,
        _ => Some(command),
    }
}
