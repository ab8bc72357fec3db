// 12-bit codes at the main pointer: KRL.
ghost use Rattle.std.specs.Prelude.{◌≡◌, true, false, length};
ghost use Rattle.board.specs.Boards.{bytes_of};
ghost use Rattle.address.specs.Narrow.{attributes_at};
ghost use Rattle.address.specs.Triples.{legal_in};
ghost use Rattle.processor.specs.States.{chip};
ghost use Rattle.processor.specs.Pointers.{pointer_of};
ghost use Rattle.processor.specs.Bytes.{narrow_read, narrow_stored};

use crate::pointer::{advance_if, pointer};
use crate::state::Processor;
use address::byte::load;
use address::place::place;
use address::position::{attributes_at, both_halves, is_odd, nibble_into};
use address::triple::Triple;
use marking::store::narrow_marks;
use shown::page::Page;

// R1 from the C byte, R3 from the position's half of the attributes.
#[tactic(auto, unfolding(crate::specs::Bytes::narrow_read))]
fn narrow_read(p: Processor, memory: &[u8], at: Triple) -> Processor
    requires { (length memory.now ≡ bytes_of p.blocks) × (legal_in p.blocks at ≡ true) × (legal_in p.blocks (attributes_at at) ≡ true) }
    ensures { result ≡ narrow_read at p memory.now }
{
    let c = load(memory, p.blocks, at);
    let attributes = load(memory, p.blocks, attributes_at(at));
    p.with_register(1, c)
        .with_register(3, both_halves(is_odd(at), attributes))
}

// R1 to the C byte, then R3 to the position's half of the attributes. What the two stores mark is asked at once, before the first.
fn narrow_stored(mut p: Processor, memory: &mut [u8], at: Triple) -> Processor
    requires { (length memory.old ≡ bytes_of p.blocks) × (legal_in p.blocks at ≡ true) × (legal_in p.blocks (attributes_at at) ≡ true) }
    ensures { chip result memory.new ≡ narrow_stored at (chip p memory.old) }
{
    let c = p.registers[1];
    let r3 = p.registers[3];
    let beside = attributes_at(at);
    let a = nibble_into(is_odd(at), load(memory, p.blocks, beside), r3);
    let before = p.marks;
    let page = Page {
        memory,
        shown: p.shown(),
    };
    let after = narrow_marks(before, &page, at, c, a);
    let here = place(at);
    let there = place(beside);
    memory[here] = c;
    memory[there] = a;
    p.marks = after;
    p
}

// KRL: a C byte and its attributes at the main pointer.
#[tactic(auto, unfolding(crate::specs::Bytes::krl))]
pub fn krl(p: Processor, memory: &mut [u8], reads: bool, increments: bool) -> Processor
    requires { (length memory.old ≡ bytes_of p.blocks) × (legal_in p.blocks (pointer_of false p) ≡ true) × (legal_in p.blocks (attributes_at (pointer_of false p)) ≡ true) }
    ensures { chip result memory.new ≡ Rattle.processor.specs.Bytes.krl reads increments (chip p memory.old) }
{
    let at = pointer(p, false);
    let free = p.cleared();
    if reads {
        return advance_if(narrow_read(free, memory, at), increments);
    }
    advance_if(narrow_stored(free, memory, at), increments)
}
