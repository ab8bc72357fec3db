// The row drawer: the ten lines of a row, drawn in the part of the picture that is lent for it.
ghost use Rattle.std.specs.Prelude.{◌≡◌, length};
ghost use Rattle.basics.specs.Parts.{table, joined};
ghost use Rattle.shown.specs.Lengths.{forty_bytes, row_bytes};
ghost use Rattle.page.specs.HowHalves.{right_in};
ghost use Rattle.lines.specs.HowLines.{line_on};
ghost use Rattle.rows.specs.Rows.{painted};
ghost use Rattle.rows.specs.HowRows.{inputs_of};

use board::Part;
use columns::pairs::pairs_of;
use columns::ten::tens_of;
use lines::line::line;
use shown::length::LINE_BYTES;
use shown::page::Scene;

// The ten lines, each built by value and then copied. They are found by their numbers: of a slice that was lent in
// parts by `chunks_exact_mut`
// a proof knows its length, and not what stands in it.
fn draw_lines(
    lent: &mut [u8],
    part: Part,
    cells: [[u8; 3]; 40],
    lowers: [bool; 40],
    tens: &[u8; 400],
    pairs: &[u8; 160],
)
    requires { length lent.old ≡ row_bytes forty_bytes }
    ensures { lent.new ≡ joined (line_on part cells lowers tens.now pairs.now) 10 }
{
    for n in 0..10 {
        let at = LINE_BYTES * n;
        let drawn = line(part, cells, lowers, tens, pairs, n);
        lent[at..at + LINE_BYTES].copy_from_slice(&drawn);
    }
}

// A row in its part of the picture, from its row buffer and its halves.
pub fn draw_row(
    lent: &mut [u8],
    scene: &Scene,
    cells: [[u8; 3]; 40],
    lowers: [bool; 40],
    rights: [bool; 40],
)
    requires { (length lent.old ≡ row_bytes forty_bytes) × (rights ≡ table (right_in cells) 40) }
    ensures { lent.new ≡ painted scene.now.rom.now scene.now.page.shown (inputs_of scene.now.page.memory.now scene.now.page.shown cells lowers) }
{
    let shown = scene.page.shown;
    let tens = tens_of(scene, cells, lowers, rights);
    let pairs = pairs_of(cells, shown);
    draw_lines(lent, shown.part, cells, lowers, &tens, &pairs);
}
