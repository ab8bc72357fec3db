// The packed pairs of a row's forty cells, worked out once for its ten lines.
ghost use Rattle.std.specs.Prelude.{◌≡◌};
ghost use Rattle.columns.specs.HowTens.{step_to, steps_of, pairs_of};

use crate::column::put_column;
use cell::decode::decode;
use pixels::pairs::cell_pairs;
use shown::Shown;

// From one byte to another, modulo 256.
fn step_to(a: u8, b: u8) -> u8
    ensures { result ≡ step_to a b }
{
    b.wrapping_sub(a)
}

// A line chooses between two pairs by adding the step or not, which takes fewer instructions than to choose between the pairs.
fn steps(four: [u8; 4]) -> [u8; 4]
    ensures { result ≡ steps_of four }
{
    [
        four[0],
        step_to(four[0], four[1]),
        four[2],
        step_to(four[2], four[3]),
    ]
}

// For each cell the packed byte of two pixels with no bit of the slice set, 40 further on the step to that with the left pixel's, and 80
// and 120 further on the same with the right pixel's set too.
pub fn pairs_of(cells: [[u8; 3]; 40], shown: Shown) -> [u8; 160]
    ensures { result ≡ pairs_of cells shown }
{
    let part = shown.part;
    let mut pairs = [0; 160];
    for (x, code) in cells.iter().enumerate() {
        let four = steps(cell_pairs(decode(part, *code), shown));
        put_column(&mut pairs, x, &four);
    }
    pairs
}
