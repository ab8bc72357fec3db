// Questions about a stretch of cells whose bytes stand side by side in each block of the page: columns 0 to 31 of a row, and 32 to 39.
ghost use Rattle.std.specs.Prelude.{◌≡◌, ℕ, Bool, List, ◌+◌, ◌%◌, ◌<◌, ◌≤◌, get_or};
ghost use Rattle.basics.specs.Below.{any_below};
ghost use Rattle.address.specs.Places.{place_of, block_of};
ghost use Rattle.page.specs.Asked.{AnswersAs};
ghost use Rattle.page.specs.HowCodes.{code_of, Has};
ghost use Rattle.page.specs.Halves.{is_tall, is_wide, goes_on};
ghost use Rattle.page.specs.HowHalves.{Within, Compared, stretch_code, goes_on_in};

use address::place::{block, place_at};
use board::Part;
use cell::decode::last_bichrome;

// The question is answered yes at some number below n. The loop gathers and goes to its end, so that it can be compiled
// to ask many bytes at once.
pub fn some_below<F: Fn(usize) -> bool>(n: usize, question: F) -> bool
    requires { (i : ℕ) → i < n → F.pre question i }
    ensures { (test : ℕ → Bool) → AnswersAs (F.post question) test n → result ≡ any_below test n }
{
    let mut found = false;
    for i in 0..n {
        found = found | question(i);
    }
    found
}

// Where byte k of a stretch's cells starts.
pub fn start(z: u8, y: u8, first: u16, k: u8) -> usize
    ensures { result ≡ place_of first y (block_of z k) }
{
    place_at(first, y as u16, block(z, k) as u16)
}

// Where its C, B and A bytes start.
#[derive(Clone, Copy)]
pub struct Starts {
    pub c: usize,
    pub b: usize,
    pub a: usize,
}

pub fn starts_of(z: u8, y: u8, first: u16) -> Starts
    ensures { (result.c ≡ place_of first y (block_of z 0)) × (result.b ≡ place_of first y (block_of z 1)) × (result.a ≡ place_of first y (block_of z 2)) }
{
    compared_by(z, y, first, 2)
}

// A cell is of double width, by its B: from 192 on none is.
fn is_wide_by(b: u8) -> bool
    ensures { (code : List ℕ) → b ≡ get_or code 1 0 → result ≡ is_wide code }
{
    (b < 192) & (b / 8 % 2 == 1)
}

// A cell of double width.
pub fn some_wide(memory: &[u8], z: u8, y: u8, first: u16, n: usize) -> bool
    requires { Has memory.now z 1 × (y < 32) × (first + n ≤ 40) × (first % 32 + n ≤ 32) }
    ensures { result ≡ any_below (λ i. is_wide (code_of memory.now z y (first + i))) n }
{
    let b = start(z, y, first, 1);
    some_below(n, |i| is_wide_by(memory[b + i]))
}

// Cell i of a stretch is of double height and has the three bytes of the cell above it. Without a jump, so that a loop over the cells
// becomes vector instructions.
pub fn goes_on_at(part: Part, memory: &[u8], here: Starts, above: Starts, i: usize) -> bool
    requires { Within memory.now here (i + 1) × Within memory.now above (i + 1) }
    ensures { result ≡ goes_on (is_tall part (stretch_code memory.now here i)) (stretch_code memory.now here i) (stretch_code memory.now above i) }
{
    let c = memory[here.c + i];
    let b = memory[here.b + i];
    let a = memory[here.a + i];
    let same_b = b == memory[above.b + i];
    let same_a = a == memory[above.a + i];
    let same = (c == memory[above.c + i]) & (same_b & same_a);
    ((b <= last_bichrome(part)) & (b / 2 % 2 == 1)) & same
}

// The starts by which the cells of two rows are compared, the third bytes being those of the page's block `third`. Where block 2 is not
// fitted every third byte is 0, and the first bytes compared twice tell the same.
pub fn compared_by(z: u8, y: u8, first: u16, third: u8) -> Starts
    ensures { (result.c ≡ place_of first y (block_of z 0)) × (result.b ≡ place_of first y (block_of z 1)) × (result.a ≡ place_of first y (block_of z third)) }
{
    Starts {
        c: start(z, y, first, 0),
        b: start(z, y, first, 1),
        a: start(z, y, first, third),
    }
}

// A cell of the row at Y that goes on from the cell above it, in the row at `above`.
pub fn some_on(
    part: Part,
    memory: &[u8],
    z: u8,
    third: u8,
    y: u8,
    above: u8,
    first: u16,
    n: usize,
) -> bool
    requires { Compared memory.now z third × (y < 32) × (above < 32) × (first + n ≤ 40) × (first % 32 + n ≤ 32) }
    ensures { result ≡ any_below (λ i. goes_on_in part memory.now z y above (first + i)) n }
{
    let here = compared_by(z, y, first, third);
    let over = compared_by(z, above, first, third);
    some_below(n, |i| goes_on_at(part, memory, here, over, i))
}
