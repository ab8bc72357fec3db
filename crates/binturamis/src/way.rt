// The ways of a write, by the board's byte: 0, for an EF9345 with 16 blocks and no move that runs, has a way of its own, in which nothing is worked out
// from the board, and so has a plain write on 4, for a TS9347.
ghost use Rattle.std.specs.Prelude.{◌≡◌, get_or};
ghost use Rattle.processor.specs.States.{chip};
ghost use Rattle.processor.specs.Access.{written};
ghost use Rattle.packing.specs.Layouts.{unpacked};
ghost use Rattle.kept.specs.Orders.{is_early};
ghost use Rattle.binturamis.specs.Calls.{called, call_of};

use crate::access::{early, past_32};
use crate::leave::leave_written;
use board::{BLOCKS, Part, TS9347_BLOCKS, TS9347_MEMORY_BYTES};
use packing::layout::{packed, unpacked, unpacked_as};
use processor::state::Processor;

// The processor of bytes that have 0 for the board.
pub fn unpacked_full(bytes: [u8; 64]) -> Processor
    requires { get_or bytes 44 0 ≡ 0 }
    ensures { result ≡ unpacked bytes }
{
    unpacked_as(bytes, BLOCKS, false, Part::Ef9345)
}

// The processor of bytes that have 4 for the board.
fn unpacked_ts9347(bytes: [u8; 64]) -> Processor
    requires { get_or bytes 44 0 ≡ 4 }
    ensures { result ≡ unpacked bytes }
{
    unpacked_as(bytes, TS9347_BLOCKS, false, Part::Ts9347)
}

// A write on any board.
pub fn write_on_board(p: &mut [u8; 64], memory: &mut [u8], address: u8, value: u8) -> u32
    ensures { called p.new memory.new result ≡ call_of is_early p.old (written address value (chip (unpacked p.old) memory.old)) }
{
    let before = unpacked(*p);
    let refused = early(memory.len(), before.blocks, before.busy, address, value);
    if refused != 0 {
        return refused;
    }
    if address / 8 == 4 {
        p[address as usize - 32] = value;
        *p = packed(unpacked(*p));
        return 0;
    }
    let answered = before.write(memory, address, value);
    leave_written(p, answered)
}

// A write with another memory than the 16,384 bytes of an EF9345.
pub fn write_elsewhere(p: &mut [u8; 64], memory: &mut [u8], address: u8, value: u8) -> u32
    ensures { called p.new memory.new result ≡ call_of is_early p.old (written address value (chip (unpacked p.old) memory.old)) }
{
    if memory.len() == TS9347_MEMORY_BYTES {
        let n = past_32(address);
        if n < 8 {
            if p[44] == 4 {
                p[n as usize] = value;
                *p = packed(unpacked_ts9347(*p));
                return 0;
            }
        }
    }
    write_on_board(p, memory, address, value)
}
