// The three packed bytes that each byte of a cell's line chooses, worked out once for a page.
ghost use Rattle.std.specs.Prelude.{◌≡◌, [], ◌∷◌, ◌++◌, ◌<◌, length};
ghost use Rattle.narrow.specs.HowInks.{ink_of, inks_of, eight_of};

use colour::{Colour, packed};
use shown::Shown;

// The packed bytes of two pixels, by their two bits and D.
fn eight_of(shown: Shown) -> [u8; 8]
    ensures { result ≡ eight_of shown }
{
    let none = Colour::from_number(shown.mat);
    let one = Colour::from_number(shown.dor);
    let other = Colour::from_number(shown.dor / 16);
    [
        packed(none, none),
        packed(one, none),
        packed(none, one),
        packed(one, one),
        packed(none, none),
        packed(other, none),
        packed(none, other),
        packed(other, other),
    ]
}

// The three bytes of byte e, and one that no cell shows: bytes four apart are found by fewer instructions than bytes
// three apart.
fn ink(eight: &[u8; 8], shown: Shown, e: usize) -> [u8; 4]
    requires { (eight.now ≡ eight_of shown) × (e < 128) }
    ensures { result ≡ ink_of shown e ++ 0 ∷ [] }
{
    let d = e / 64 * 4;
    [
        eight[d + e % 4],
        eight[d + e / 4 % 4],
        eight[d + e / 16 % 4],
        0,
    ]
}

// Each byte's part is cut out by its place: the library's `chunks_exact_mut` does not say what the slice ends as.
pub fn inks_of(shown: Shown) -> [u8; 512]
    ensures { result ≡ inks_of shown }
{
    let eight = eight_of(shown);
    let mut inks = [0; 512];
    for e in 0..128 {
        inks[4 * e..4 * e + 4].copy_from_slice(&ink(&eight, shown, e));
    }
    inks
}
