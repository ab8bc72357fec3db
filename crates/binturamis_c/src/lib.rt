// The C interface: the operations of crate `binturamis` under their names for C, each with the same promise. The header is
// include/binturamis.h; a slice is handed over as its first byte and its length.
#![tactic(auto)]

ghost use Rattle.std.specs.Prelude.{◌≡◌};
ghost use Rattle.command.specs.Answers.{power_number_of};
ghost use Rattle.processor.specs.States.{chip, power_up};
ghost use Rattle.processor.specs.PowerUps.{powered_up_board};
ghost use Rattle.processor.specs.Access.{written, read_out, turned};
ghost use Rattle.processor.specs.Moves.{stepped};
ghost use Rattle.processor.specs.Draws.{drawn};
ghost use Rattle.packing.specs.Layouts.{packed, unpacked};
ghost use Rattle.packing.specs.Reports.{reported};
ghost use Rattle.kept.specs.Orders.{is_early};
ghost use Rattle.binturamis.specs.Calls.{word, is_refusal, called, call_of, draw_called, draw_call_of};

// Power-up of an EF9345 with 16 blocks, whatever the bytes held.
#[unsafe(no_mangle)]
pub extern "C" fn binturamis_power_up(p: &mut [u8; 64])
    ensures { p.new ≡ packed power_up }
{
    binturamis::binturamis_power_up(p);
}

// Power-up of a board that the caller names, whatever the bytes held.
#[unsafe(no_mangle)]
pub extern "C" fn binturamis_power_up_board(p: &mut [u8; 64], part: u8, blocks: u8) -> u32
    ensures { (p.new ≡ packed (powered_up_board part blocks).processor) × (result ≡ word (power_number_of (powered_up_board part blocks).answer) 0) }
{
    binturamis::binturamis_power_up_board(p, part, blocks)
}

// A register is written; then the command runs, if the address asks for it. On 16 blocks while no move runs, with 0 for the board, a plain write stores
// in place.
#[unsafe(no_mangle)]
pub extern "C" fn binturamis_write(
    p: &mut [u8; 64],
    memory: &mut [u8],
    address: u8,
    value: u8,
) -> u32
    ensures { called p.new memory.new result ≡ call_of is_early p.old (written address value (chip (unpacked p.old) memory.old)) }
{
    binturamis::binturamis_write(p, memory, address, value)
}

// A register is read; then the command runs, if the address asks for it, and may store.
#[unsafe(no_mangle)]
pub extern "C" fn binturamis_read(p: &mut [u8; 64], memory: &mut [u8], address: u8) -> u32
    ensures { called p.new memory.new result ≡ call_of is_refusal p.old (read_out address (chip (unpacked p.old) memory.old)) }
{
    binturamis::binturamis_read(p, memory, address)
}

// One character position of the move that runs; nothing where none does.
#[unsafe(no_mangle)]
pub extern "C" fn binturamis_step(p: &mut [u8; 64], memory: &mut [u8]) -> u32
    ensures { called p.new memory.new result ≡ call_of is_refusal p.old (stepped (chip (unpacked p.old) memory.old)) }
{
    binturamis::binturamis_step(p, memory)
}

// The phase change.
#[unsafe(no_mangle)]
pub extern "C" fn binturamis_turn(p: &mut [u8; 64], memory: &[u8], phase: u8) -> u32
    ensures { called p.new memory.now result ≡ call_of is_refusal p.old (turned phase (chip (unpacked p.old) memory.now)) }
{
    binturamis::binturamis_turn(p, memory, phase)
}

// The marked rows are redrawn and the marks cleared.
#[unsafe(no_mangle)]
pub extern "C" fn binturamis_draw(
    p: &mut [u8; 64],
    memory: &[u8],
    rom: &[u8],
    picture: &mut [u8],
) -> u32
    ensures { draw_called p.new picture.new result ≡ draw_call_of p.old (drawn (unpacked p.old) memory.now rom.now picture.old) }
{
    binturamis::binturamis_draw(p, memory, rom, picture)
}

// What the bytes hold, to be shown or compared. They stay as they are.
#[unsafe(no_mangle)]
pub extern "C" fn binturamis_state(p: &[u8; 64], out: &mut [u8; 48])
    ensures { out.new ≡ reported (unpacked p.now) }
{
    binturamis::binturamis_state(p, out);
}
