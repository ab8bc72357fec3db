// The line drawer: a packed line of forty cells, built by value.
ghost use Rattle.std.specs.Prelude.{◌≡◌, ◌<◌};
ghost use Rattle.lines.specs.HowLines.{line_on};

use crate::byte::line_bytes;
use crate::pack::packed_line;
use board::Part;

// Line n of a row, from its row buffer and what was worked out once for its ten lines.
pub fn line(
    part: Part,
    cells: [[u8; 3]; 40],
    lowers: [bool; 40],
    tens: &[u8; 400],
    pairs: &[u8; 160],
    n: usize,
) -> [u8; 160]
    requires { n < 10 }
    ensures { result ≡ line_on part cells lowers tens.now pairs.now n }
{
    packed_line(line_bytes(part, cells, lowers, tens, n), pairs)
}
