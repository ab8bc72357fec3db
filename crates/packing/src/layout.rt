// The 64 bytes that hold a processor.
ghost use Rattle.std.specs.Prelude.{◌≡◌, true, ◌%◌, get_or};
ghost use Rattle.board.specs.Boards.{is_board};
ghost use Rattle.packing.specs.Layouts.{board_byte, part_of_byte, blocks_of_byte, is_busy_byte, packed, unpacked};

use crate::part::{eight_from, flag, marks_from, put_eight, put_marks};
use board::Part;
use processor::state::Processor;

// The blocks of the board that a byte's low four bits name: 2 and 8 for themselves, 4 for a TS9347's 32, and any other for 16. (As a table: comparing the
// byte with each makes `unpacked` too long to be compiled into its callers, and each of them fifty instructions dearer.)
const BOARDS: [u8; 16] = [16, 16, 2, 16, 32, 16, 16, 16, 8, 16, 16, 16, 16, 16, 16, 16];

fn board_byte(blocks: u8, busy: bool) -> u8
    ensures { result ≡ board_byte blocks busy }
{
    let idle = blocks % 16 + blocks / 32 * 4;
    if busy {
        return idle + 16;
    }
    idle
}

fn blocks_of(byte: u8) -> u8
    ensures { result ≡ blocks_of_byte byte }
{
    BOARDS[usize::from(byte % 16)]
}

fn part_of(byte: u8) -> Part
    ensures { result ≡ part_of_byte byte }
{
    if byte % 16 == 4 {
        Part::Ts9347
    } else {
        Part::Ef9345
    }
}

// The processor of bytes of which the board and busy are known.
pub fn unpacked_as(bytes: [u8; 64], blocks: u8, busy: bool, part: Part) -> Processor
    requires { (blocks ≡ blocks_of_byte (get_or bytes 44 0)) × (busy ≡ is_busy_byte (get_or bytes 44 0)) × (part ≡ part_of_byte (get_or bytes 44 0)) }
    ensures { result ≡ unpacked bytes }
{
    let registers = eight_from(bytes, 0);
    let indirect = eight_from(bytes, 8);
    let marks = marks_from(bytes, 19);
    Processor {
        registers,
        indirect,
        lxm: bytes[16] != 0,
        lxa: bytes[17] != 0,
        phase: bytes[18],
        marks,
        blocks,
        busy,
        part,
    }
}

pub fn unpacked(bytes: [u8; 64]) -> Processor
    ensures { result ≡ unpacked bytes }
{
    let byte = bytes[44];
    unpacked_as(bytes, blocks_of(byte), 16 <= byte, part_of(byte))
}

// Whatever the processor of a board, its bytes unpack to it.
pub fn packed(p: Processor) -> [u8; 64]
    ensures { (result ≡ packed p) × (is_board p.part p.blocks ≡ true → unpacked result ≡ p) }
{
    let mut bytes = [0u8; 64];
    bytes[16] = flag(p.lxm);
    bytes[17] = flag(p.lxa);
    bytes[18] = p.phase;
    bytes[44] = board_byte(p.blocks, p.busy);
    let registers = p.registers;
    let indirect = p.indirect;
    let marks = p.marks;
    put_eight(&mut bytes, 0, registers);
    put_eight(&mut bytes, 8, indirect);
    put_marks(&mut bytes, 19, marks);
    bytes
}
