// The slice that each of the ten lines of a cell shows.
ghost use Rattle.std.specs.Prelude.{◌≡◌, true, false, ◌<◌, get_or};
ghost use Rattle.cell.specs.Cells.{set_of, alphanumeric_of, cell_of};
ghost use Rattle.pixels.specs.Slices.{slice_shown};
ghost use Rattle.slices.specs.HowSlices.{twenty_at, by_number, half_of};

use board::Part;
use pixels::height::slice_of_twenty;
use std::array;

// The slice that line n of a half of a double height cell shows.
fn tall_slice(alphanumeric: bool, lower: bool, s: [u8; 10], n: u8) -> u8
    requires { n < 10 }
    ensures { result ≡ get_or s (twenty_at alphanumeric lower n) 0 }
{
    let line = if lower { 10 + n } else { n };
    s[slice_of_twenty(alphanumeric, line) as usize]
}

// The slices that ten of the twenty lines of a double height cell show.
pub fn tall_slices(alphanumeric: bool, lower: bool, s: [u8; 10]) -> [u8; 10]
    ensures { result ≡ by_number s (twenty_at alphanumeric lower) }
{
    array::from_fn(|n| tall_slice(alphanumeric, lower, s, n as u8))
}

// Whether B below 192 names an alphanumeric set.
fn is_alphanumeric_at(part: Part, b: u8) -> bool
    requires { b < 192 }
    ensures { result ≡ alphanumeric_of (set_of part b) }
{
    match part {
        Part::Ef9345 => b / 32 % 4 != 1,
        Part::Ts9347 => b / 32 % 2 == 0,
    }
}

// Which half of twenty lines a cell shows whose B is from 192 on: of an EF9345 that of its low resolution, of a TS9347 that of its double height.
fn half_of(part: Part, b: u8, lower: bool) -> bool
    ensures { result ≡ half_of part b lower }
{
    match part {
        Part::Ef9345 => b / 4 % 2 == 1,
        Part::Ts9347 => lower,
    }
}

// By B alone: bit 1 doubles the lines of every cell, of whichever type.
pub fn shown_slices(part: Part, code: [u8; 3], lower: bool, slices: [u8; 10]) -> [u8; 10]
    ensures { result ≡ by_number slices (slice_shown (cell_of part (get_or code 0 0) (get_or code 1 0) (get_or code 2 0)) lower) }
{
    let b = code[1];
    if b / 2 % 2 == 0 {
        return slices;
    }
    if b < 192 {
        return tall_slices(is_alphanumeric_at(part, b), lower, slices);
    }
    tall_slices(false, half_of(part, b, lower), slices)
}
