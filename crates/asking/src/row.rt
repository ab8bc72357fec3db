// Questions about a row of the page at Y, whose first block is Z, and about rows that follow on. Each is asked of the
// bytes of every cell, which stand side by side in their blocks, those of the left columns and those of the right.
ghost use Rattle.std.specs.Prelude.{◌≡◌, ℕ, Bool, true, List, [], ◌∷◌, ◌+◌, ◌≤◌, ◌<◌, get_or};
ghost use Rattle.basics.specs.Below.{any_below};
ghost use Rattle.board.specs.declared.Part.TheVariants.{Ef9345, Ts9347};
ghost use Rattle.address.specs.Places.{place_of};
ghost use Rattle.page.specs.Asked.{AnswersAs};
ghost use Rattle.page.specs.HowCodes.{Has};
ghost use Rattle.page.specs.Halves.{is_tall};
ghost use Rattle.page.specs.Inputs.{flashes};
ghost use Rattle.narrow.specs.Codes.{pair_flashes};
ghost use Rattle.asking.specs.HowAsked.{blinks, shows_character, tall_at, flash_at, pair_flash_at, blink_at, character_at, keyed_at};
ghost use Rattle.keys.specs.HowKeys.{keys_high};

use address::place::place_at;
use board::Part;
use keys::key::Keys;
use page::code::block_start;
use page::stretch::some_below;

// The question is answered yes for a cell of the row at Y. It is asked of where the cell's bytes stand in their blocks.
// Where a row has such a cell, one on its left is most often, so the 32 left columns are asked in two halves, and then
// the 8 right ones. Always compiled into its caller, so that the question stands in the loop.
#[inline(always)]
fn some_in_row<F: Fn(usize) -> bool>(y: u8, question: F) -> bool
    requires { (y < 32) × ((at : ℕ) → at < 1024 → F.pre question at) }
    ensures { (test : ℕ → Bool) → AnswersAs (F.post question) test 1024 → result ≡ any_below (λ x. test (place_of x y 0)) 40 }
{
    let left = place_at(0, y as u16, 0);
    let right = place_at(32, y as u16, 0);
    some_below(16, |i| question(left + i))
        || some_below(16, |i| question(left + 16 + i))
        || some_below(8, |i| question(right + i))
}

// The same of a cell of the row at Y or of the rows with the next Ys, so many in all: from Y 8 on the row with the next
// Y follows on, on the left and on the right, so that one look does for all.
fn some_in_rows<F: Fn(usize) -> bool>(y: u8, rows: usize, question: F) -> bool
    requires { (8 ≤ y) × (y + rows ≤ 32) × ((at : ℕ) → at < 1024 → F.pre question at) }
    ensures { (test : ℕ → Bool) → AnswersAs (F.post question) test 1024
        → result ≡ any_below (λ k. any_below (λ x. test (place_of x (y + k) 0)) 40) rows }
{
    let left = place_at(0, y as u16, 0);
    let right = place_at(32, y as u16, 0);
    some_below(32 * rows, |i| question(left + i)) || some_below(8 * rows, |i| question(right + i))
}

// Double height, of an EF9345. Each part has a test of its own, so that the limit of B is a number in the loop and not
// a variable.
fn is_tall_ef9345(b: u8) -> bool
    ensures { (code : List ℕ) → b ≡ get_or code 1 0 → result ≡ is_tall Ef9345 code }
{
    (b < 192) & (b / 2 % 2 == 1)
}

// Double height of a TS9347, whose every cell is bichrome: B1 alone tells it.
fn is_tall_ts9347(b: u8) -> bool
    ensures { (code : List ℕ) → b ≡ get_or code 1 0 → result ≡ is_tall Ts9347 code }
{
    b / 2 % 2 == 1
}

// Flashing, of an EF9345.
fn flashes_ef9345(b: u8, a: u8) -> bool
    ensures { (code : List ℕ) → b ≡ get_or code 1 0 → a ≡ get_or code 2 0 → result ≡ flashes Ef9345 code }
{
    (b < 192) & (a / 8 % 2 == 1)
}

// In 80 columns a column flashes where one of its two cells does. The attributes of both are halves of one byte.
fn pair_flashes(c: u8, b: u8, a: u8) -> bool
    ensures { result ≡ pair_flashes (c ∷ b ∷ a ∷ []) }
{
    let even = (c < 128) & (a / 64 % 2 == 1);
    let odd = (b < 128) & (a / 4 % 2 == 1);
    even | odd
}

// A3 is set, whatever B is: half the bytes of the question whether the cell flashes.
fn blinks(a: u8) -> bool
    ensures { (code : List ℕ) → a ≡ get_or code 2 0 → result ≡ blinks code }
{
    a / 8 % 2 == 1
}

// C is the character, and B is not that of a cell from the ROM.
fn shows_character(c: u8, b: u8, t: u8) -> bool
    ensures { (code : List ℕ) → c ≡ get_or code 0 0 → b ≡ get_or code 1 0 → result ≡ shows_character t code }
{
    (c % 128 == t) & (b >= 128)
}

// A cell of double height.
pub fn has_tall(part: Part, memory: &[u8], z: u8, y: u8) -> bool
    requires { Has memory.now z 1 × (y < 32) }
    ensures { result ≡ tall_at part memory.now z y }
{
    let b = block_start(z, 1);
    match part {
        Part::Ef9345 => some_in_row(y, |at| is_tall_ef9345(memory[b + at])),
        Part::Ts9347 => some_in_row(y, |at| is_tall_ts9347(memory[b + at])),
    }
}

// A cell that flashes, of an EF9345. Always compiled into its caller, the loop over the rows.
#[inline(always)]
pub fn has_flash(memory: &[u8], z: u8, y: u8) -> bool
    requires { Has memory.now z 1 × Has memory.now z 2 × (y < 32) }
    ensures { result ≡ flash_at Ef9345 memory.now z y }
{
    let b = block_start(z, 1);
    let a = block_start(z, 2);
    some_in_row(y, |at| flashes_ef9345(memory[b + at], memory[a + at]))
}

// A column that flashes, in 80 columns.
pub fn has_pair_flash(memory: &[u8], z: u8, y: u8) -> bool
    requires { Has memory.now z 0 × Has memory.now z 1 × Has memory.now z 2 × (y < 32) }
    ensures { result ≡ pair_flash_at memory.now z y }
{
    let c = block_start(z, 0);
    let b = block_start(z, 1);
    let a = block_start(z, 2);
    some_in_row(
        y,
        |at| pair_flashes(memory[c + at], memory[b + at], memory[a + at]),
    )
}

// A cell whose A3 is set.
pub fn has_blink(memory: &[u8], z: u8, y: u8) -> bool
    requires { Has memory.now z 2 × (y < 32) }
    ensures { result ≡ blink_at memory.now z y }
{
    let a = block_start(z, 2);
    some_in_row(y, |at| blinks(memory[a + at]))
}

// The same of the row with this Y and the next three.
pub fn near_blinks(memory: &[u8], z: u8, y: u8) -> bool
    requires { Has memory.now z 2 × (8 ≤ y) × (y < 29) }
    ensures { result ≡ any_below (λ k. blink_at memory.now z (y + k)) 4 }
{
    let a = block_start(z, 2);
    some_in_rows(y, 4, |at| blinks(memory[a + at]))
}

// A cell with the character, and not from the ROM.
pub fn has_character(memory: &[u8], z: u8, y: u8, t: u8) -> bool
    requires { Has memory.now z 0 × Has memory.now z 1 × (y < 32) }
    ensures { result ≡ character_at memory.now z y t }
{
    let c = block_start(z, 0);
    let b = block_start(z, 1);
    some_in_row(y, |at| shows_character(memory[c + at], memory[b + at], t))
}

// The same of the row with this Y and the next.
pub fn near_has(memory: &[u8], z: u8, y: u8, t: u8) -> bool
    requires { Has memory.now z 0 × Has memory.now z 1 × (8 ≤ y) × (y < 31) }
    ensures { result ≡ any_below (λ k. character_at memory.now z (y + k) t) 2 }
{
    let c = block_start(z, 0);
    let b = block_start(z, 1);
    some_in_rows(
        y,
        2,
        |at| shows_character(memory[c + at], memory[b + at], t),
    )
}

// A cell that the keys fit. Most rows do not have the character at all: that is asked before the parts of B.
pub fn has_keyed(memory: &[u8], z: u8, y: u8, keys: Keys) -> bool
    requires { Has memory.now z 0 × Has memory.now z 1 × (y < 32) × (keys_high keys ≡ true) }
    ensures { result ≡ keyed_at keys memory.now z y }
{
    let c = block_start(z, 0);
    let b = block_start(z, 1);
    has_character(memory, z, y, keys.character)
        && some_in_row(y, |at| keys.fit(memory[c + at], memory[b + at]))
}
