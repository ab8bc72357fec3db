// Accesses that are told apart before the call that runs commands, which hands the whole state over and back: those that only a register
// takes part in, since handing the state over would cost more than all the rest of them, and those refused before they take place, since
// they leave the state alone.
ghost use Rattle.std.specs.Prelude.{◌≡◌, not, ◌&&◌, ◌+◌, ◌/◌, ◌%◌, eqb};
ghost use Rattle.basics.specs.Bits.{bits};
ghost use Rattle.basics.specs.Choice.{pick};
ghost use Rattle.board.specs.Boards.{bytes_of};
ghost use Rattle.command.specs.Held.{is_write_held};
ghost use Rattle.binturamis.specs.Calls.{word};

use board::bytes_of;
use command::held::is_write_held;

// 4 times 8 is 2 in the address's high four bits with bit 3, which asks for execution, clear. While a move runs no access is plain.
pub fn is_plain(memory: usize, blocks: u8, busy: bool, address: u8) -> bool
    ensures { result ≡ (not busy && (eqb memory (bytes_of blocks) && eqb (address / 8) 4)) }
{
    if busy {
        return false;
    }
    if memory == bytes_of(blocks) {
        return address / 8 == 4;
    }
    false
}

// How far an address is past 20 hex, round 256. Below 8 it is plain, and from 16 on it is refused by 2. (One subtraction, which is the register
// too: the same tests by the address's bits take two instructions more.)
pub fn past_32(address: u8) -> u8
    ensures { result ≡ (address + 224) % 256 }
{
    ((address as u16 + 224) % 256) as u8
}

// The answer of a write that is refused by 1, 2 or 10; 0 for any other.
// (Still to be written as an Option of a refusal, with `word` making the number.)
pub fn early(memory: usize, blocks: u8, busy: bool, address: u8, value: u8) -> u32
    ensures { result ≡ pick (eqb memory (bytes_of blocks)) (pick (eqb (bits 4 4 address) 2) (pick (busy && is_write_held address value) (word 10 0) 0) (word 2 0)) (word 1 0) }
{
    if memory != bytes_of(blocks) {
        return 65536;
    }
    if address / 16 != 2 {
        return 131072;
    }
    if is_write_held(busy, address, value) {
        return 655360;
    }
    0
}
