// The bytes of one position, carried through R1 from one pointer's place to the other's. What they mark is asked at once, before the first is stored.
ghost use Rattle.std.specs.Prelude.{◌≡◌, true, length, set, ltb, ℕ, ◌<◌, ◌≤◌, Some, None, IsSome, unwrap_or};
ghost use Rattle.basics.specs.Choice.{pick};
ghost use Rattle.board.specs.Boards.{bytes_of};
ghost use Rattle.address.specs.Places.{block_at, loaded};
ghost use Rattle.address.specs.Triples.{legal_in};
ghost use Rattle.processor.specs.States.{chip};
ghost use Rattle.processor.specs.Moves.{carried_all};
ghost use Rattle.processor.specs.HowCarried.{stored_if};

use crate::state::Processor;
use address::byte::load;
use address::place::{block_at, place, place_at};
use address::triple::Triple;
use marking::span::span_marks;
use shown::page::Page;

// The byte at a triple, once a value is stored at a place: that value, where it is the same place.
fn load_after(memory: &[u8], blocks: u8, at: Triple, stored: usize, value: u8) -> u8
    requires { (length memory.now ≡ bytes_of blocks) × (legal_in blocks at ≡ true) × (stored < bytes_of blocks) }
    ensures { result ≡ loaded at (set memory.now stored value) }
{
    let here = place(at);
    if here == stored {
        return value;
    }
    memory[here]
}

// The second byte, of a move of two or three: the first is stored by then.
fn second_byte(bytes: u8, memory: &[u8], blocks: u8, at: Triple, first: usize, c: u8) -> Option<u8>
    requires { (length memory.now ≡ bytes_of blocks) × (first < bytes_of blocks) × (2 ≤ bytes → legal_in blocks at ≡ true) }
    ensures { result ≡ pick (ltb bytes 2) None (Some (loaded at (set memory.now first c))) }
{
    if bytes < 2 {
        return None;
    }
    Some(load_after(memory, blocks, at, first, c))
}

// The third, of a move of three: both before it are stored.
fn third_byte(
    bytes: u8,
    memory: &[u8],
    blocks: u8,
    at: Triple,
    first: usize,
    c: u8,
    second: usize,
    b: Option<u8>,
) -> Option<u8>
    requires { (length memory.now ≡ bytes_of blocks) × (first < bytes_of blocks) × (3 ≤ bytes → (legal_in blocks at ≡ true) × (second < bytes_of blocks) × IsSome b) }
    ensures { result ≡ pick (ltb bytes 3) None (Some (loaded at (set (set memory.now first c) second (unwrap_or b 0)))) }
{
    if bytes < 3 {
        return None;
    }
    if place(at) == second {
        return b;
    }
    Some(load_after(memory, blocks, at, first, c))
}

// A byte that is moved goes to its place.
fn store_if(memory: &mut [u8], place: usize, value: Option<u8>)
    requires { IsSome value → place < length memory.old }
    ensures { memory.new ≡ stored_if place value memory.old }
{
    if let Some(value) = value {
        memory[place] = value;
    }
}

// One, two or three bytes.
pub fn carry_all(
    mut p: Processor,
    memory: &mut [u8],
    from: Triple,
    to: Triple,
    bytes: u8,
) -> Processor
    requires { (length memory.old ≡ bytes_of p.blocks) × (1 ≤ bytes) × (bytes ≤ 3)
        × ((k : ℕ) → k < bytes → legal_in p.blocks (block_at from k) ≡ true) × ((k : ℕ) → k < bytes → legal_in p.blocks (block_at to k) ≡ true) }
    ensures { chip result memory.new ≡ carried_all bytes from to (chip p memory.old) }
{
    let here = place_at(to.x as u16, to.y as u16, 0);
    let first = place(block_at(to, 0));
    let second = place(block_at(to, 1));
    let third = place(block_at(to, 2));
    let c = load(memory, p.blocks, block_at(from, 0));
    let b = second_byte(bytes, memory, p.blocks, block_at(from, 1), first, c);
    let a = third_byte(
        bytes,
        memory,
        p.blocks,
        block_at(from, 2),
        first,
        c,
        second,
        b,
    );
    let before = p.marks;
    let page = Page {
        memory,
        shown: p.shown(),
    };
    let after = span_marks(
        before,
        &page,
        to,
        here,
        bytes,
        c,
        b.unwrap_or(0),
        a.unwrap_or(0),
    );
    memory[first] = c;
    store_if(memory, second, b);
    store_if(memory, third, a);
    p.registers[1] = a.or(b).unwrap_or(c);
    p.marks = after;
    p
}
