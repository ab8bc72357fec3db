// An answer as one number.
ghost use Rattle.std.specs.Prelude.{◌≡◌, ◌<◌};
ghost use Rattle.binturamis.specs.Calls.{word};

use command::answer::Numbered;

// There is room for a value of 16 bits. (Taken as a u16, rows cost a redraw 1,400 instructions.)
fn word_of(number: u8, value: u32) -> u32
    requires { value < 65536 }
    ensures { result ≡ word number value }
{
    65536 * (number as u32) + value
}

// Of any answer that the page numbers, whose value has 16 bits.
pub fn word<A: Numbered + Copy>(answer: A) -> u32
    requires { A.valued answer < 65536 }
    ensures { result ≡ word (A.numbered answer) (A.valued answer) }
{
    word_of(answer.number(), answer.value() as u32)
}
