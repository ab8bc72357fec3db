// The three code bytes of each cell of a screen row.
ghost use Rattle.std.specs.Prelude.{◌≡◌, [], ◌∷◌, ◌+◌, ◌*◌, ◌-◌, ◌<◌, ltb, length};
ghost use Rattle.basics.specs.Choice.{pick};
ghost use Rattle.basics.specs.Parts.{table};
ghost use Rattle.address.specs.Places.{place_of, block_of, byte_at};
ghost use Rattle.page.specs.Codes.{row_buffer};
ghost use Rattle.page.specs.Halves.{is_wide};
ghost use Rattle.page.specs.HowCodes.{code_of, is_fitted, Has};

use address::place::{block, place_at};
use address::row::row_y;
use shown::Shown;
use shown::page::Page;
use std::array;

// The page's block k is fitted.
pub fn is_fitted(shown: Shown, k: u8) -> bool
    ensures { result ≡ is_fitted shown k }
{
    block(shown.first_block(), k) < shown.blocks
}

// A cell of double width, of either part: B from 192 on never has it.
pub fn is_wide(code: [u8; 3]) -> bool
    ensures { result ≡ is_wide code }
{
    code[1] < 192 && code[1] / 8 % 2 == 1
}

// Where a block starts.
pub fn block_start(z: u8, k: u8) -> usize
    ensures { result ≡ 1024 * block_of z k }
{
    1024 * block(z, k) as usize
}

// The forty bytes at Y of block z: those of the left columns stand side by side, and those of the right ones. Where
// the block is not fitted they are 0.
fn bytes_at(page: &Page, z: u8, y: u8) -> [u8; 40]
    requires { y < 32 }
    ensures { result ≡ table (λ x. byte_at page.now.memory.now (place_of x y z)) 40 }
{
    let mut bytes = [0; 40];
    if z < page.shown.blocks {
        let left = place_at(0, y as u16, z as u16);
        let right = place_at(32, y as u16, z as u16);
        bytes[..32].copy_from_slice(&page.memory[left..left + 32]);
        bytes[32..].copy_from_slice(&page.memory[right..right + 8]);
    }
    bytes
}

// The cells of the row at Y, of a page whose first block is z.
fn cells_of(page: &Page, z: u8, y: u8) -> [[u8; 3]; 40]
    requires { y < 32 }
    ensures { result ≡ table (code_of page.now.memory.now z y) 40 }
{
    let c = bytes_at(page, block(z, 0), y);
    let b = bytes_at(page, block(z, 1), y);
    let a = bytes_at(page, block(z, 2), y);
    array::from_fn(
        |x|
            requires { x < 40 }
            ensures { result ≡ byte_at c x ∷ byte_at b x ∷ byte_at a x ∷ [] }
        { [c[x], b[x], a[x]] },
    )
}

// The row buffer of a screen row, from blocks as for KRF.
pub fn row_buffer(page: &Page, row: u8) -> [[u8; 3]; 40]
    ensures { result ≡ row_buffer page.now.shown page.now.memory.now row }
{
    let z = page.shown.first_block();
    let y = row_y(page.shown.yor(), row);
    cells_of(page, z, y)
}
