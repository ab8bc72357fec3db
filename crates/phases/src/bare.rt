// The rows that flash on a page that has its third block and not its second: columns are asked one by one, with 0 for each byte that is not fitted.
ghost use Rattle.std.specs.Prelude.{◌≡◌, [], ◌∷◌, length};
ghost use Rattle.page.specs.Marks.{marked_too};
ghost use Rattle.reading.specs.Marks.{flash_in};
ghost use Rattle.phases.specs.HowPhases.{flashes_in};

use crate::rows::mark_where;
use board::Part;
use cell::decode::last_bichrome;
use page::code::row_buffer;
use page::stretch::some_below;
use shown::page::Page;

// A column by its C, B and A: in 80 columns one of its two cells flashes, in 40 its one. (The tests stand in
// `asking::row` too, for its questions of bytes in memory; each is two comparisons, and an edit turns it where it stands.)
fn column_flashes(part: Part, eighty: bool, c: u8, b: u8, a: u8) -> bool
    ensures { result ≡ flashes_in part eighty (c ∷ b ∷ a ∷ []) }
{
    if eighty {
        let even = (c < 128) & (a / 64 % 2 == 1);
        let odd = (b < 128) & (a / 4 % 2 == 1);
        return even | odd;
    }
    (b <= last_bichrome(part)) & (a / 8 % 2 == 1)
}

fn row_flashes(page: &Page, row: u8) -> bool
    ensures { result ≡ flash_in page.now.shown page.now.memory.now row }
{
    let part = page.shown.part;
    let eighty = page.shown.is_eighty();
    let cells = row_buffer(page, row);
    some_below(
        40,
        |x| column_flashes(part, eighty, cells[x][0], cells[x][1], cells[x][2]),
    )
}

// The rows that flash, in either mode.
pub fn bare_flash_in(marks: &mut [bool; 25], page: &Page)
    ensures { marks.new ≡ marked_too (flash_in page.now.shown page.now.memory.now) marks.old }
{
    mark_where(marks, 0..25, |r| row_flashes(page, r));
}
