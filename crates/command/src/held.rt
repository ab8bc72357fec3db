// What is refused while a move runs.
ghost use Rattle.std.specs.Prelude.{◌≡◌, ◌&&◌};
ghost use Rattle.command.specs.Held.{is_read_held, is_write_held};

// Every read but that of the status, R0 at a lower address.
#[tactic(auto, unfolding(crate::specs::Held::is_read_held))]
pub fn is_read_held(busy: bool, address: u8) -> bool
    ensures { result ≡ (busy && is_read_held address) }
{
    busy && address % 16 != 0
}

// Every write but that of a NOP to R0 at an upper address, which runs it.
#[tactic(auto, unfolding(crate::specs::Held::is_write_held))]
pub fn is_write_held(busy: bool, address: u8, value: u8) -> bool
    ensures { result ≡ (busy && is_write_held address value) }
{
    busy && (address % 16 != 8 || value < 0x90 || 0x91 < value)
}
