// The triples that the two pointers name, from the bits of their registers.
ghost use Rattle.std.specs.Prelude.{◌≡◌, ◌<◌};
ghost use Rattle.address.specs.Pointers.{main_pointer, auxiliary_pointer};
ghost use Rattle.address.specs.HowPointers.{pointer_of};

use crate::triple::Triple;
use board::Part;

// A triple from how many eights Z has, the register that has Y and Z2, and the one that has X: its bit 7 is Z0 and
// its bit 6 is Z1.
fn pointer(eights: u8, y: u8, x: u8) -> Triple
    requires { eights < 4 }
    ensures { result ≡ pointer_of eights y x }
{
    Triple {
        x: x % 64,
        y: y % 32,
        z: eights * 8 + y / 32 % 2 * 4 + x / 64 % 2 * 2 + x / 128 % 2,
    }
}

// R6 and R7. Z3 of an EF9345 is R6 bit 7; a TS9347's Z4 and Z3 are bits 7 and 6.
pub fn main_pointer(part: Part, r6: u8, r7: u8) -> Triple
    ensures { result ≡ main_pointer part r6 r7 }
{
    match part {
        Part::Ef9345 => pointer(r6 / 128, r6, r7),
        Part::Ts9347 => pointer(r6 / 64, r6, r7),
    }
}

// R4 and R5 likewise; the Z3 of an EF9345 stands in R6.
pub fn auxiliary_pointer(part: Part, r4: u8, r5: u8, r6: u8) -> Triple
    ensures { result ≡ auxiliary_pointer part r4 r5 r6 }
{
    match part {
        Part::Ef9345 => pointer(r6 / 64 % 2, r4, r5),
        Part::Ts9347 => main_pointer(part, r4, r5),
    }
}
