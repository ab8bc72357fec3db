// The byte of each cell of a line that the cell's pairs are chosen by: the slice's, or 255 where the cell is underlined.
ghost use Rattle.std.specs.Prelude.{◌≡◌, ◌<◌};
ghost use Rattle.basics.specs.Parts.{table};
ghost use Rattle.columns.specs.HowColumns.{byte_in};
ghost use Rattle.lines.specs.HowLines.{lined_byte, lined_on, bytes_on};

use board::Part;
use cell::decode::decode;
use pixels::height::is_underlined_on;
use std::array;

// A byte of line n, underlined where it is.
pub fn lined(part: Part, code: [u8; 3], lower: bool, n: u8, byte: u8) -> u8
    requires { n < 10 }
    ensures { result ≡ lined_byte part code lower n byte }
{
    if is_underlined_on(decode(part, code), lower, n) {
        return 255;
    }
    byte
}

// The bytes of line n, underlined where they are.
fn underlined(
    part: Part,
    cells: [[u8; 3]; 40],
    lowers: [bool; 40],
    plain: [u8; 40],
    n: u8,
) -> [u8; 40]
    requires { n < 10 }
    ensures { result ≡ table (lined_on part cells lowers plain n) 40 }
{
    array::from_fn(|x| lined(part, cells[x], lowers[x], n, plain[x]))
}

// The byte of each cell of line n, not underlined yet.
fn plain_bytes(tens: &[u8; 400], n: usize) -> [u8; 40]
    requires { n < 10 }
    ensures { result ≡ table (byte_in tens.now n) 40 }
{
    let mut bytes = [0; 40];
    bytes.copy_from_slice(&tens[40 * n..40 * n + 40]);
    bytes
}

// The byte of each cell of line n. A cell that is underlined shows slice 9 on its last line alone, so that no other line is asked.
pub fn line_bytes(
    part: Part,
    cells: [[u8; 3]; 40],
    lowers: [bool; 40],
    tens: &[u8; 400],
    n: usize,
) -> [u8; 40]
    requires { n < 10 }
    ensures { result ≡ bytes_on part cells lowers tens.now n }
{
    let plain = plain_bytes(tens, n);
    if n == 9 {
        return underlined(part, cells, lowers, plain, 9);
    }
    plain
}
