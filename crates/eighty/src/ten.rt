// The ten bytes of each position of a row, worked out once for its ten lines.
ghost use Rattle.std.specs.Prelude.{◌≡◌, ◌≤◌, length};
ghost use Rattle.eighty.specs.HowEighty.{SevenBits, eighty_tens};

use narrow::pair::{even, odd};
use narrow::ten::ten_of;
use shown::Shown;

// The ten bytes of a row's eighty positions, each of which chooses packed bytes by its seven bits.
#[derive(Clone, Copy)]
pub struct Tens {
    pub bytes: [u8; 800],
    pub ghost seven_bits: { SevenBits bytes },
}

// Column by column, the even position before the odd one.
pub fn tens_of(rom: &[u8], shown: Shown, cells: [[u8; 3]; 40]) -> Tens
    requires { 1280 ≤ length rom.now }
    ensures { result.bytes ≡ eighty_tens rom.now shown cells }
{
    let mut bytes = [0; 800];
    for (x, code) in cells.iter().enumerate() {
        let first = ten_of(rom, shown, even(*code));
        let second = ten_of(rom, shown, odd(*code));
        bytes[20 * x..20 * x + 20].copy_from_slice([first, second].as_flattened());
    }
    Tens { bytes }
}
