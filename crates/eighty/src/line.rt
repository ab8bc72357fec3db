// The line drawer: a packed line of eighty positions, built by value from the packed bytes that their bytes choose.
ghost use Rattle.std.specs.Prelude.{◌≡◌, ◌+◌, ◌*◌, ◌<◌, length, get_or, take};
ghost use Rattle.basics.specs.Parts.{joined};
ghost use Rattle.shown.specs.Lengths.{eighty_bytes, line_bytes};
ghost use Rattle.eighty.specs.HowEighty.{SevenBits, three_on, eighty_line_on};

use crate::ten::Tens;
use shown::length::EIGHTY_LINE_BYTES;

// Where the packed bytes stand that position p chooses on line n.
fn inks_at(tens: &Tens, n: usize, p: usize) -> usize
    requires { (n < 10) × (p < 80) }
    ensures { (result ≡ 4 * get_or tens.now.bytes (10 * p + n) 0) × (result < 509) }
{
    4 * tens.bytes[10 * p + n] as usize
}

// Line n of a row, built by value and then copied. It is copied here, and not by the row drawer: a line that is
// returned is copied once more on the way. Each position is put with the byte behind its three, which the next one
// puts anew: to move four bytes takes fewer instructions than to move three. So the line has one byte more than is
// copied, and the parts overlap, as no chunks of it would.
pub fn draw_line(part: &mut [u8], tens: &Tens, inks: &[u8; 512], n: usize)
    requires { (length part.old ≡ line_bytes eighty_bytes) × (n < 10) }
    ensures { part.new ≡ eighty_line_on tens.now.bytes inks.now n }
{
    let mut line = [0; 241];
    for p in 0..80 {
        let from = inks_at(tens, n, p);
        line[3 * p..3 * p + 4].copy_from_slice(&inks[from..from + 4]);
    }
    part.copy_from_slice(&line[..EIGHTY_LINE_BYTES]);
}
