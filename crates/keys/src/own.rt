// The screen row that has a Y: the rule of a row's Y, the other way round.
ghost use Rattle.std.specs.Prelude.{◌≡◌};
ghost use Rattle.keys.specs.HowKeys.{row_at};

use address::row::past_eight;

pub fn row_at(yor: u8, y: u8) -> u8
    ensures { result ≡ row_at yor y }
{
    if y < 8 {
        return 0;
    }
    let on = y as u16 + 16 - past_eight(yor) as u16 % 24;
    1 + (on % 24) as u8
}
