// The two cells of a column in 80 columns.
ghost use Rattle.std.specs.Prelude.{◌≡◌};
ghost use Rattle.narrow.specs.Codes.{even_of, odd_of};

// Its C byte and its four attributes.
#[derive(Clone, Copy)]
pub struct Narrow {
    pub character: u8,
    pub attributes: u8,
}

// The even one has the first block's byte and the high nibble of the third's, the odd one the second block's byte and
// the low nibble: two functions say it more plainly than one that is told which.
pub fn even(code: [u8; 3]) -> Narrow
    ensures { result ≡ even_of code }
{
    Narrow {
        character: code[0],
        attributes: code[2] / 16,
    }
}

pub fn odd(code: [u8; 3]) -> Narrow
    ensures { result ≡ odd_of code }
{
    Narrow {
        character: code[1],
        attributes: code[2] % 16,
    }
}
