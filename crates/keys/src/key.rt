// Which cells read a byte at X and Y in one of a few blocks as a slice. X and Y leave one character; the blocks and DOR leave at most
// six values of parts of B: so a cell is asked by comparing its bytes, and no place is worked out.
ghost use Rattle.std.specs.Prelude.{◌≡◌, ℕ, List, ◌<◌, get_or};
ghost use Rattle.keys.specs.HowKeys.{key_if, quad_key, keys_of, is_source, keyed, is_one, some_changed, code_block, some_code_block};

use address::place::block;
use shown::Shown;

// The character; then b / 32, b / 16 and b / 8 of the B bytes whose source is one of the blocks: user G'0, user G'10 and G'11, and
// quadrichrome or Q in each block. 255 where no byte's is.
#[derive(Clone, Copy)]
pub struct Keys {
    pub character: u8,
    pub user0: u8,
    pub user10: u8,
    pub user11: u8,
    pub quad0: u8,
    pub quad1: u8,
    pub quad2: u8,
}

impl Keys {
    // The cell of these bytes is one that the keys fit.
    pub fn fit(self, c: u8, b: u8) -> bool
        ensures { (code : List ℕ) → c ≡ get_or code 0 0 → b ≡ get_or code 1 0 → result ≡ keyed self code }
    {
        let user = (b / 32 == self.user0) | ((b / 16 == self.user10) | (b / 16 == self.user11));
        let quad = (b / 8 == self.quad0) | ((b / 8 == self.quad1) | (b / 8 == self.quad2));
        (c % 128 == self.character) & (user | quad)
    }
}

fn key_if(fits: bool, key: u8) -> u8
    ensures { result ≡ key_if fits key }
{
    if fits {
        return key;
    }
    255
}

// Z is one of the blocks.
fn is_one(blocks: [u8; 3], z: u8) -> bool
    ensures { result ≡ is_one blocks z }
{
    (blocks[0] == z) | ((blocks[1] == z) | (blocks[2] == z))
}

fn quad_key(shown: Shown, z: u8) -> u8
    ensures { result ≡ quad_key shown z }
{
    key_if(shown.dor / 128 % 2 == z / 8, 24 + z % 8)
}

// The blocks are numbers of blocks, or 255.
pub fn keys_of(shown: Shown, x: u8, y: u8, blocks: [u8; 3]) -> Keys
    requires { y < 32 }
    ensures { result ≡ keys_of shown x y blocks }
{
    let d = shown.dor / 16 % 8 * 2;
    Keys {
        character: y * 4 + x % 4,
        user0: key_if(is_one(blocks, shown.dor % 16), 4),
        user10: key_if(is_one(blocks, d), 10),
        user11: key_if(is_one(blocks, d + 1), 11),
        quad0: quad_key(shown, blocks[0]),
        quad1: quad_key(shown, blocks[1]),
        quad2: quad_key(shown, blocks[2]),
    }
}

// Some byte can have the source.
pub fn is_source(keys: Keys) -> bool
    ensures { result ≡ is_source keys }
{
    let users = (keys.user0 != 255) | ((keys.user10 != 255) | (keys.user11 != 255));
    let quads = (keys.quad0 != 255) | ((keys.quad1 != 255) | (keys.quad2 != 255));
    users | quads
}

// A byte changes in some block.
pub fn some_changed(blocks: [u8; 3]) -> bool
    ensures { result ≡ some_changed blocks }
{
    (blocks[0] != 255) | ((blocks[1] != 255) | (blocks[2] != 255))
}

// Z is one of the three blocks of a page.
fn is_code_block(first: u8, z: u8) -> bool
    ensures { result ≡ code_block first z }
{
    (block(first, 0) == z) | ((block(first, 1) == z) | (block(first, 2) == z))
}

pub fn some_code_block(first: u8, blocks: [u8; 3]) -> bool
    ensures { result ≡ some_code_block first blocks }
{
    is_code_block(first, blocks[0])
        | (is_code_block(first, blocks[1]) | is_code_block(first, blocks[2]))
}
