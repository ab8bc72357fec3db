// The row drawer: the ten lines of a row, drawn in the part of the picture that is lent for it.
ghost use Rattle.std.specs.Prelude.{◌≡◌, ◌≤◌, length};
ghost use Rattle.basics.specs.Parts.{joined};
ghost use Rattle.shown.specs.Lengths.{eighty_bytes, row_bytes};
ghost use Rattle.narrow.specs.HowInks.{inks_of};
ghost use Rattle.eighty.specs.Rows.{eighty_lines};
ghost use Rattle.eighty.specs.HowEighty.{eighty_line_on};

use crate::line::draw_line;
use crate::ten::{Tens, tens_of};
use shown::Shown;
use shown::length::EIGHTY_LINE_BYTES;

// Each line's part is cut out by its place: the library's `chunks_exact_mut` does not say what the slice ends as.
fn draw_lines(part: &mut [u8], tens: &Tens, inks: &[u8; 512])
    requires { length part.old ≡ row_bytes eighty_bytes }
    ensures { part.new ≡ joined (eighty_line_on tens.now.bytes inks.now) 10 }
{
    for n in 0..10 {
        draw_line(
            &mut part[EIGHTY_LINE_BYTES * n..EIGHTY_LINE_BYTES * n + EIGHTY_LINE_BYTES],
            tens,
            inks,
            n,
        );
    }
}

// A row in its part of the picture, from its row buffer and the packed bytes of the page's colours.
pub fn draw_row(part: &mut [u8], rom: &[u8], shown: Shown, inks: &[u8; 512], cells: [[u8; 3]; 40])
    requires { (length part.old ≡ row_bytes eighty_bytes) × (1280 ≤ length rom.now) × (inks.now ≡ inks_of shown) }
    ensures { part.new ≡ eighty_lines rom.now shown cells }
{
    let tens = tens_of(rom, shown, cells);
    draw_lines(part, &tens, inks);
}
