// The two kinds of cell, and what each carries.
use colour::Colour;

#[derive(Clone, Copy, Debug, PartialEq, Eq)]
pub enum Set {
    G0,
    G10,
    G11,
    G20,
    G21,
    // The TS9347's GOE.
    Goe,
    // G'0.
    UserG0,
    // G'10 or G'11, by s.
    UserG1(u8),
    // A TS9347's user set, by B5..3; DOR 7 is the highest bit of its block.
    Q(u8),
}

#[derive(Clone, Copy, Debug, PartialEq, Eq)]
pub enum Resolution {
    High,
    // K.
    Low(u8),
}

#[derive(Clone, Copy, Debug, PartialEq, Eq)]
pub struct BichromeCell {
    pub character: u8,
    pub set: Set,
    pub underline: bool,
    // Double width.
    pub wide: bool,
    pub conceal: bool,
    // Double height.
    pub tall: bool,
    pub negative: bool,
    pub foreground: Colour,
    pub flash: bool,
    pub background: Colour,
}

#[derive(Clone, Copy, Debug, PartialEq, Eq)]
pub struct QuadrichromeCell {
    pub character: u8,
    // B5..3; DOR 7 is the block's highest bit.
    pub block: u8,
    pub resolution: Resolution,
    pub palette: u8,
}

#[derive(Clone, Copy, Debug, PartialEq, Eq)]
pub enum Cell {
    Bichrome(BichromeCell),
    Quadrichrome(QuadrichromeCell),
}
