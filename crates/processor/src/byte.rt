// Bytes of private memory through the pointers: OCT and KRF at a pointer whose bytes are legal and fitted.
// OCT, KRF and KRL share only their frame (clear, reach the memory, increment): one function for them would take all
// that they do as closures.
ghost use Rattle.std.specs.Prelude.{◌≡◌, true, false, length};
ghost use Rattle.board.specs.Boards.{bytes_of};
ghost use Rattle.address.specs.Places.{block_at};
ghost use Rattle.address.specs.Triples.{legal_in};
ghost use Rattle.processor.specs.States.{chip};
ghost use Rattle.processor.specs.Pointers.{pointer_of};
ghost use Rattle.processor.specs.Bytes.{stored};

use crate::pointer::{increment_if, pointer};
use crate::state::Processor;
use address::byte::load;
use address::place::{block, block_at, place, place_at};
use address::triple::Triple;
use marking::store::{code_marks, store_marks};
use shown::page::Page;

// A store marks by the lists just before it.
#[tactic(auto, unfolding(crate::specs::Bytes::stored))]
pub fn store(mut p: Processor, memory: &mut [u8], at: Triple, value: u8) -> Processor
    requires { (length memory.old ≡ bytes_of p.blocks) × (legal_in p.blocks at ≡ true) }
    ensures { chip result memory.new ≡ stored at value (chip p memory.old) }
{
    let before = p.marks;
    let page = Page {
        memory,
        shown: p.shown(),
    };
    let after = store_marks(before, &page, at, value);
    let here = place(at);
    memory[here] = value;
    p.marks = after;
    p
}

// OCT: R1 with one byte.
#[tactic(auto, unfolding(crate::specs::Bytes::oct))]
pub fn oct(
    p: Processor,
    memory: &mut [u8],
    reads: bool,
    auxiliary: bool,
    increments: bool,
) -> Processor
    requires { (length memory.old ≡ bytes_of p.blocks) × (legal_in p.blocks (pointer_of auxiliary p) ≡ true) }
    ensures { chip result memory.new ≡ Rattle.processor.specs.Bytes.oct reads auxiliary increments (chip p memory.old) }
{
    let at = pointer(p, auxiliary);
    let free = p.cleared();
    if reads {
        let value = load(memory, p.blocks, at);
        return increment_if(free.with_register(1, value), increments, auxiliary);
    }
    let r1 = p.registers[1];
    let next = store(free, memory, at, r1);
    increment_if(next, increments, auxiliary)
}

// R1, R2, R3 from the C, B, A bytes.
#[tactic(auto, unfolding(crate::specs::Bytes::code_read))]
fn code_read(p: Processor, memory: &[u8], at: Triple) -> Processor
    requires { (length memory.now ≡ bytes_of p.blocks) × (legal_in p.blocks (block_at at 0) ≡ true) × (legal_in p.blocks (block_at at 1) ≡ true) × (legal_in p.blocks (block_at at 2) ≡ true) }
    ensures { result ≡ Rattle.processor.specs.Bytes.code_read at p memory.now }
{
    let c = load(memory, p.blocks, block_at(at, 0));
    let b = load(memory, p.blocks, block_at(at, 1));
    let a = load(memory, p.blocks, block_at(at, 2));
    p.with_register(1, c)
        .with_register(2, b)
        .with_register(3, a)
}

// R1, R2, R3 to the C, B, A bytes, in that order. Their places differ in the block alone, and what the three stores mark is asked at once,
// before the first.
fn code_stored(mut p: Processor, memory: &mut [u8], at: Triple) -> Processor
    requires { (length memory.old ≡ bytes_of p.blocks) × (legal_in p.blocks (block_at at 0) ≡ true) × (legal_in p.blocks (block_at at 1) ≡ true) × (legal_in p.blocks (block_at at 2) ≡ true) }
    ensures { chip result memory.new ≡ Rattle.processor.specs.Bytes.code_stored at (chip p memory.old) }
{
    let c = p.registers[1];
    let b = p.registers[2];
    let a = p.registers[3];
    let before = p.marks;
    let here = place_at(at.x as u16, at.y as u16, 0);
    let page = Page {
        memory,
        shown: p.shown(),
    };
    let after = code_marks(before, &page, at, here, c, b, a);
    memory[here + 1024 * block(at.z, 0) as usize] = c;
    memory[here + 1024 * block(at.z, 1) as usize] = b;
    memory[here + 1024 * block(at.z, 2) as usize] = a;
    p.marks = after;
    p
}

// KRF: three code bytes at the main pointer.
#[tactic(auto, unfolding(crate::specs::Bytes::krf))]
pub fn krf(p: Processor, memory: &mut [u8], reads: bool, increments: bool) -> Processor
    requires { (length memory.old ≡ bytes_of p.blocks) × (legal_in p.blocks (block_at (pointer_of false p) 0) ≡ true) × (legal_in p.blocks (block_at (pointer_of false p) 1) ≡ true) × (legal_in p.blocks (block_at (pointer_of false p) 2) ≡ true) }
    ensures { chip result memory.new ≡ Rattle.processor.specs.Bytes.krf reads increments (chip p memory.old) }
{
    let at = pointer(p, false);
    let free = p.cleared();
    if reads {
        return increment_if(code_read(free, memory, at), increments, false);
    }
    increment_if(code_stored(free, memory, at), increments, false)
}
