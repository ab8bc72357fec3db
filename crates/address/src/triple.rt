// A triple X, Y, Z, and whether it is legal.
ghost use Rattle.std.specs.Prelude.{◌≡◌};
ghost use Rattle.address.specs.Triples.{legal_y, legal};

#[derive(Clone, Copy, Debug, PartialEq, Eq)]
pub struct Triple {
    pub x: u8,
    pub y: u8,
    pub z: u8,
}

// Y 0 or 8..31.
#[tactic(auto, unfolding(crate::specs::Triples::legal_y))]
pub fn is_legal_y(y: u8) -> bool
    ensures { result ≡ legal_y y }
{
    y == 0 || 8 <= y && y < 32
}

// X 0..39, Y 0 or 8..31; Z is whatever a pointer can say.
#[tactic(auto, unfolding(crate::specs::Triples::on_page))]
pub fn is_legal(t: Triple) -> bool
    ensures { result ≡ legal t }
{
    t.x < 40 && is_legal_y(t.y)
}
