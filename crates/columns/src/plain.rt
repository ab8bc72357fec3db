// Cells of a ROM set, of single height and width: most cells of a page of text. Each line shows the slice of its own
// number.
ghost use Rattle.std.specs.Prelude.{◌≡◌};
ghost use Rattle.columns.specs.HowTens.{is_plain};

pub fn is_plain(b: u8) -> bool
    ensures { result ≡ is_plain b }
{
    (b < 128) & ((b / 2 % 2 == 0) & (b / 8 % 2 == 0))
}
