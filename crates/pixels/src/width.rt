// Double width: four bits of a slice become eight.
ghost use Rattle.std.specs.Prelude.{◌≡◌, true};
ghost use Rattle.basics.specs.Bits.{from_bits};
ghost use Rattle.pixels.specs.Pixels.{taken_bit};

// Each bit of a nibble twice.
const DOUBLED: [u8; 16] = [
    0x00, 0x03, 0x0C, 0x0F, 0x30, 0x33, 0x3C, 0x3F, 0xC0, 0xC3, 0xCC, 0xCF, 0xF0, 0xF3, 0xFC, 0xFF,
];

// The left half shows slice bits 0 to 3, the right half 4 to 7.
pub fn doubled(right: bool, slice: u8) -> u8
    ensures { result ≡ from_bits (taken_bit true right slice) 8 }
{
    if right {
        DOUBLED[usize::from(slice / 16)]
    } else {
        DOUBLED[usize::from(slice % 16)]
    }
}
