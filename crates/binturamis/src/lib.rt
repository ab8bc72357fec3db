// What the C interface does: the processor's operations on 64 bytes that the caller keeps; crate `binturamis_c` hands them to C. Each unpacks
// the bytes, does the operation and packs what it leaves, so that any 64 bytes get an answer; those of a power-up or of an earlier call mean
// the processor that it left. Where a refusal has changed nothing, nothing is written.
#![tactic(auto)]

ghost use Rattle.std.specs.Prelude.{◌≡◌};
ghost use Rattle.command.specs.Answers.{power_number_of};
ghost use Rattle.processor.specs.States.{chip, power_up};
ghost use Rattle.processor.specs.PowerUps.{powered_up_board};
ghost use Rattle.processor.specs.Access.{written, read_out, turned};
ghost use Rattle.processor.specs.Moves.{stepped};
ghost use Rattle.processor.specs.Draws.{drawn};
ghost use Rattle.packing.specs.Layouts.{packed, unpacked};
ghost use Rattle.packing.specs.Reports.{reported};
ghost use Rattle.kept.specs.Orders.{is_early};
ghost use Rattle.binturamis.specs.Calls.{word, is_refusal, called, call_of, draw_called, draw_call_of};

mod access;
mod leave;
mod way;
mod word;

use access::{is_plain, past_32};
use board::MEMORY_BYTES;
use leave::{leave, leave_written};
use packing::layout::{packed, unpacked};
use packing::report::reported;
use processor::state::Processor;
use way::{unpacked_full, write_elsewhere, write_on_board};
use word::word;

// Power-up of an EF9345 with 16 blocks, whatever the bytes held.
pub fn binturamis_power_up(p: &mut [u8; 64])
    ensures { p.new ≡ packed power_up }
{
    *p = packed(Processor::power_up());
}

// Power-up of a board that the caller names, whatever the bytes held.
pub fn binturamis_power_up_board(p: &mut [u8; 64], part: u8, blocks: u8) -> u32
    ensures { (p.new ≡ packed (powered_up_board part blocks).processor) × (result ≡ word (power_number_of (powered_up_board part blocks).answer) 0) }
{
    let powered = Processor::power_up_board(part, blocks);
    *p = packed(powered.processor);
    word(powered.answer)
}

// A register is written; then the command runs, if the address asks for it. On 16 blocks while no move runs, with 0 for the board, a plain write stores
// in place.
pub fn binturamis_write(p: &mut [u8; 64], memory: &mut [u8], address: u8, value: u8) -> u32
    ensures { called p.new memory.new result ≡ call_of is_early p.old (written address value (chip (unpacked p.old) memory.old)) }
{
    if memory.len() != MEMORY_BYTES {
        return write_elsewhere(p, memory, address, value);
    }
    let n = past_32(address);
    if n < 8 {
        if p[44] != 0 {
            return write_on_board(p, memory, address, value);
        }
        p[n as usize] = value;
        *p = packed(unpacked_full(*p));
        return 0;
    }
    if p[44] != 0 {
        return write_on_board(p, memory, address, value);
    }
    if 15 < n {
        return 131072;
    }
    let answered = unpacked_full(*p).write(memory, address, value);
    leave_written(p, answered)
}

// A register is read; then the command runs, if the address asks for it, and may store.
pub fn binturamis_read(p: &mut [u8; 64], memory: &mut [u8], address: u8) -> u32
    ensures { called p.new memory.new result ≡ call_of is_refusal p.old (read_out address (chip (unpacked p.old) memory.old)) }
{
    let before = unpacked(*p);
    if is_plain(memory.len(), before.blocks, before.busy, address) {
        *p = packed(before);
        return before.register(address) as u32;
    }
    let answered = before.read(memory, address);
    leave(p, answered.processor, answered.answer)
}

// One character position of the move that runs; nothing where none does.
pub fn binturamis_step(p: &mut [u8; 64], memory: &mut [u8]) -> u32
    ensures { called p.new memory.new result ≡ call_of is_refusal p.old (stepped (chip (unpacked p.old) memory.old)) }
{
    let answered = unpacked(*p).step(memory);
    leave(p, answered.processor, answered.answer)
}

// The phase change.
pub fn binturamis_turn(p: &mut [u8; 64], memory: &[u8], phase: u8) -> u32
    ensures { called p.new memory.now result ≡ call_of is_refusal p.old (turned phase (chip (unpacked p.old) memory.now)) }
{
    let answered = unpacked(*p).turn(memory, phase);
    leave(p, answered.processor, answered.answer)
}

// The marked rows are redrawn and the marks cleared.
pub fn binturamis_draw(p: &mut [u8; 64], memory: &[u8], rom: &[u8], picture: &mut [u8]) -> u32
    ensures { draw_called p.new picture.new result ≡ draw_call_of p.old (drawn (unpacked p.old) memory.now rom.now picture.old) }
{
    let drawn = unpacked(*p).draw(memory, rom, picture);
    leave(p, drawn.processor, drawn.answer)
}

// What the bytes hold, to be shown or compared. They stay as they are.
pub fn binturamis_state(p: &[u8; 64], out: &mut [u8; 48])
    ensures { out.new ≡ reported (unpacked p.now) }
{
    *out = reported(unpacked(*p));
}
