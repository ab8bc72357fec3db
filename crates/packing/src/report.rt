// The 48 bytes that show a processor's state.
ghost use Rattle.std.specs.Prelude.{◌≡◌};
ghost use Rattle.packing.specs.Reports.{reported};

use crate::part::put_marks;
use processor::state::Processor;

pub fn reported(p: Processor) -> [u8; 48]
    ensures { result ≡ reported p }
{
    let mut bytes = [0u8; 48];
    let status = p.status();
    let registers = p.registers;
    let indirect = p.indirect;
    let marks = p.marks;
    bytes[0] = registers[1];
    bytes[1] = registers[2];
    bytes[2] = registers[3];
    bytes[3] = registers[4];
    bytes[4] = registers[5];
    bytes[5] = registers[6];
    bytes[6] = registers[7];
    bytes[7] = registers[0];
    bytes[8] = status;
    bytes[9] = indirect[1];
    bytes[10] = indirect[2];
    bytes[11] = indirect[3];
    bytes[12] = indirect[4];
    bytes[13] = indirect[7];
    bytes[14] = p.phase;
    bytes[40] = u8::from(p.part);
    bytes[41] = p.blocks;
    put_marks(&mut bytes, 15, marks);
    bytes
}
