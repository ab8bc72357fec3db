// The Y of a screen row.
ghost use Rattle.std.specs.Prelude.{◌≡◌, ◌-◌};
ghost use Rattle.address.specs.Rows.{row_y};

// YOR − 8. An origin below 8, at which no page is drawn, counts as 8 does: the difference is one of natural numbers here and in the
// definitions.
pub fn past_eight(yor: u8) -> u8
    ensures { result ≡ yor - 8 }
{
    yor.saturating_sub(8)
}

// Rows from 1 go round the 24 Ys from 8 on, from the origin.
#[tactic(auto, unfolding(crate::specs::Rows::row_y))]
pub fn row_y(yor: u8, row: u8) -> u8
    ensures { result ≡ row_y yor row }
{
    if row == 0 {
        return 0;
    }
    let on = past_eight(yor) as u16 + row as u16 - 1;
    8 + (on % 24) as u8
}
