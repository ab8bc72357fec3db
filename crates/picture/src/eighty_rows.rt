// The marked rows in 80 columns.
ghost use Rattle.std.specs.Prelude.{◌≡◌, true, length};
ghost use Rattle.shown.specs.Lengths.{eighty_bytes, picture_bytes};
ghost use Rattle.shown.specs.Modes.{is_eighty};
ghost use Rattle.page.specs.Marks.{marked_rows};
ghost use Rattle.picture.specs.Redraws.{redrawn};

use eighty::row::draw_row;
use narrow::ink::inks_of;
use page::code::row_buffer;
use shown::length::EIGHTY_ROW_BYTES;
use shown::page::Scene;

// Row by row. The packed bytes that the cells choose are the same for all of them.
pub fn redraw_eighty(picture: &mut [u8], scene: &Scene, marks: [bool; 25]) -> usize
    requires { (length picture.old ≡ picture_bytes eighty_bytes) × (is_eighty scene.now.page.shown ≡ true) }
    ensures { (picture.new ≡ redrawn marks picture.old scene.now.page.memory.now scene.now.rom.now scene.now.page.shown) × (result ≡ marked_rows marks 25) }
{
    let inks = inks_of(scene.page.shown);
    let mut rows = 0;
    for (r, marked) in marks.iter().enumerate() {
        if !*marked {
            continue;
        }
        let here = row_buffer(&scene.page, r as u8);
        draw_row(
            &mut picture[EIGHTY_ROW_BYTES * r..EIGHTY_ROW_BYTES * r + EIGHTY_ROW_BYTES],
            scene.rom,
            scene.page.shown,
            &inks,
            here,
        );
        rows += 1;
    }
    rows
}
