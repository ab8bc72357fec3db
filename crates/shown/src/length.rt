// The lengths of the ROM and of the picture's parts, in bytes, in 40 columns and in 80.
pub const ROM_BYTES: usize = 6400;

pub const TS9347_ROM_BYTES: usize = 3840;

pub const LINE_BYTES: usize = 160;

pub const ROW_BYTES: usize = 1600;

pub const PICTURE_BYTES: usize = 40000;

pub const EIGHTY_LINE_BYTES: usize = 240;

pub const EIGHTY_ROW_BYTES: usize = 2400;

pub const EIGHTY_PICTURE_BYTES: usize = 60000;
