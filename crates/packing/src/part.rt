// Parts of the bytes: eight registers or 25 marks, taken out and put in.
ghost use Rattle.std.specs.Prelude.{◌≡◌, map, ◌+◌, ◌≤◌, length, take, drop};
ghost use Rattle.std.proofs.Math.Seq.{paste};
ghost use Rattle.basics.specs.Choice.{one_if};
ghost use Rattle.packing.specs.Layouts.{is_on};

use std::array;

// Whether a byte stands for a bit or a mark that is set.
fn is_on(byte: u8) -> bool
    ensures { result ≡ is_on byte }
{
    byte != 0
}

// The byte of a bit or a mark. (A function of its own, so that what an edit makes of it contradicts a fact.)
pub fn flag(is_set: bool) -> u8
    ensures { result ≡ one_if is_set }
{
    u8::from(is_set)
}

pub fn eight_from(bytes: [u8; 64], start: usize) -> [u8; 8]
    requires { start ≤ 56 }
    ensures { result ≡ take 8 (drop start bytes) }
{
    let mut eight = [0; 8];
    eight.copy_from_slice(&bytes[start..start + 8]);
    eight
}

pub fn marks_from(bytes: [u8; 64], start: usize) -> [bool; 25]
    requires { start ≤ 39 }
    ensures { result ≡ map is_on (take 25 (drop start bytes)) }
{
    array::from_fn(|r| is_on(bytes[start + r]))
}

pub fn put_eight(bytes: &mut [u8], start: usize, eight: [u8; 8])
    requires { start + 8 ≤ length bytes.old }
    ensures { bytes.new ≡ paste bytes.old start eight 8 }
{
    bytes[start..start + 8].copy_from_slice(&eight);
}

// (With the array's own `map` a register write was counted at 692 instructions where it was 59 so, in unproved code with
// its checks left in.)
pub fn put_marks(bytes: &mut [u8], start: usize, marks: [bool; 25])
    requires { start + 25 ≤ length bytes.old }
    ensures { bytes.new ≡ paste bytes.old start (map one_if marks) 25 }
{
    let ones: [u8; 25] = array::from_fn(|r| flag(marks[r]));
    bytes[start..start + 25].copy_from_slice(&ones);
}
