// A line packed from the byte and the pairs of each of its forty cells.
ghost use Rattle.std.specs.Prelude.{◌≡◌, [], ◌∷◌, ◌++◌, ◌+◌, ◌*◌, ◌%◌, ◌≤◌, length, get_or, take, drop};
ghost use Rattle.basics.specs.Choice.{pick};
ghost use Rattle.basics.specs.Parts.{joined};
ghost use Rattle.shown.specs.Lengths.{forty_bytes, line_bytes};
ghost use Rattle.pixels.specs.HowPairs.{four_by};
ghost use Rattle.columns.specs.HowTens.{from_steps};
ghost use Rattle.lines.specs.HowLines.{four_of};

// A byte, or what a step leads to from it. Without a jump, so that the loop over the cells becomes vector instructions.
fn stepped(set: bool, byte: u8, step: u8) -> u8
    ensures { result ≡ pick set ((byte + step) % 256) byte }
{
    let more = if set { step } else { 0 };
    byte.wrapping_add(more)
}

// One of the four pairs, by the two lowest bits of a number: that of no bit, or of the right pixel's, with the step for the left pixel's. So
// `left` is the step from `none`, and `both` that from `right`.
fn chosen(by: u8, steps: [u8; 4]) -> u8
    ensures { result ≡ get_or (from_steps steps) (by % 4) 0 }
{
    let [none, left, right, both] = steps;
    let low = stepped(by % 2 == 1, none, left);
    let high = stepped(by % 2 == 1, right, both);
    if by / 2 % 2 == 1 { high } else { low }
}

// The four packed bytes of a cell.
fn four(by: u8, steps: [u8; 4]) -> [u8; 4]
    ensures { result ≡ four_by by (from_steps steps) }
{
    [
        chosen(by, steps),
        chosen(by / 4, steps),
        chosen(by / 16, steps),
        chosen(by / 64, steps),
    ]
}

// The packed bytes of the cells from `first` up to `end`, put in their places of a line that has those of the cells before them.
// Each byte is stored by its index. Where the cells are arrays made by `from_fn` a full redraw of text takes some 60 percent
// more instructions, and where each is copied by `copy_from_slice` three times as many: the compiler then makes no vectors.
fn pack(line: &mut [u8; 160], bytes: [u8; 40], pairs: &[u8; 160], first: usize, end: usize)
    requires { (first ≤ end) × (end ≤ 40) × (take (forty_bytes * first) line.old ≡ joined (four_of bytes pairs.now) first) }
    ensures { line.new ≡ joined (four_of bytes pairs.now) end ++ drop (forty_bytes * end) line.old }
{
    for x in first..end {
        let steps = [pairs[x], pairs[40 + x], pairs[80 + x], pairs[120 + x]];
        let four = four(bytes[x], steps);
        let at = 4 * x;
        line[at] = four[0];
        line[at + 1] = four[1];
        line[at + 2] = four[2];
        line[at + 3] = four[3];
    }
}

// The packed line of forty cells. A vector has sixteen, so the third begins among cells that are packed already: to pack eight of them once
// more costs less than to pack the last eight one by one.
pub fn packed_line(bytes: [u8; 40], pairs: &[u8; 160]) -> [u8; 160]
    ensures { result ≡ joined (four_of bytes pairs.now) 40 }
{
    let mut line = [0u8; 160];
    pack(&mut line, bytes, pairs, 0, 32);
    pack(&mut line, bytes, pairs, 24, 40);
    line
}
