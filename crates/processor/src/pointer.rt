// The pointer that a command uses, and its increments.
ghost use Rattle.std.specs.Prelude.{◌≡◌, ◌<◌};
ghost use Rattle.processor.specs.Pointers.{pointer_of, incremented, incremented_if, advanced, advanced_if};

use crate::state::Processor;
use address::pointer::{auxiliary_pointer, main_pointer};
use address::triple::Triple;
use moves::onward::next_x;

// The Z3 of an EF9345's auxiliary pointer stands in R6.
#[tactic(auto, unfolding(crate::specs::Pointers::pointer_of))]
pub fn pointer(p: Processor, auxiliary: bool) -> Triple
    ensures { result ≡ pointer_of auxiliary p }
{
    if auxiliary {
        return auxiliary_pointer(p.part, p.registers[4], p.registers[5], p.registers[6]);
    }
    main_pointer(p.part, p.registers[6], p.registers[7])
}

// X of the pointer, one more; from 39 to 0, with its LX bit.
#[tactic(auto, unfolding(crate::specs::Pointers::incremented))]
pub fn increment(mut p: Processor, auxiliary: bool) -> Processor
    requires { (pointer_of auxiliary p).x < 40 }
    ensures { result ≡ incremented auxiliary p }
{
    let n = if auxiliary { 5 } else { 7 };
    let old = p.registers[n];
    p.registers[n] = next_x(old);
    if old % 64 == 39 {
        if auxiliary {
            p.lxa = true;
        } else {
            p.lxm = true;
        }
    }
    p
}

// (`asked` is a bit of the command, and no value hangs on it.)
#[tactic(auto, unfolding(crate::specs::Pointers::incremented_if))]
pub fn increment_if(p: Processor, asked: bool, auxiliary: bool) -> Processor
    requires { (pointer_of auxiliary p).x < 40 }
    ensures { result ≡ incremented_if asked auxiliary p }
{
    if asked {
        return increment(p, auxiliary);
    }
    p
}

// The next position: the odd one of the column, and from that the even one of the next; from the last to the first, with LXm.
#[tactic(auto, unfolding(crate::specs::Pointers::advanced, crate::specs::Pointers::next_position, moves::specs::Onward::next_x))]
pub fn advance(mut p: Processor) -> Processor
    ensures { result ≡ advanced p }
{
    let old = p.registers[7];
    if old < 128 {
        p.registers[7] = old + 128;
        return p;
    }
    let even = old - 128;
    if even % 64 == 39 {
        p.registers[7] = even - 39;
        p.lxm = true;
        return p;
    }
    p.registers[7] = even + 1;
    p
}

#[tactic(auto, unfolding(crate::specs::Pointers::advanced_if))]
pub fn advance_if(p: Processor, asked: bool) -> Processor
    ensures { result ≡ advanced_if asked p }
{
    if asked {
        return advance(p);
    }
    p
}
