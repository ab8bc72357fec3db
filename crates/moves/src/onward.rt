// How the registers of the pointers go on, with a step of a move.
ghost use Rattle.std.specs.Prelude.{◌≡◌, ◌<◌};
ghost use Rattle.basics.specs.Bits.{bits};
ghost use Rattle.moves.specs.Onward.{next_x, next_y, BothOnPage, is_end};

// X one more, and from 39 to 0.
#[tactic(auto, unfolding(crate::specs::Onward::next_x))]
pub fn next_x(register: u8) -> u8
    requires { bits 0 6 register < 40 }
    ensures { result ≡ next_x register }
{
    if register % 64 == 39 {
        register - 39
    } else {
        register + 1
    }
}

// Y one more, and from 31 to 8; 0 stays 0.
#[tactic(auto, unfolding(crate::specs::Onward::next_y))]
pub fn next_y(register: u8) -> u8
    ensures { result ≡ next_y register }
{
    match register % 32 {
        0 => register,
        31 => register - 23,
        _ => register + 1,
    }
}

// Both pointers' X.
#[tactic(auto, unfolding(crate::specs::Onward::across))]
fn across(mut registers: [u8; 8]) -> [u8; 8]
    requires { BothOnPage registers }
    ensures { result ≡ Rattle.moves.specs.Onward.across registers }
{
    registers[5] = next_x(registers[5]);
    registers[7] = next_x(registers[7]);
    registers
}

// The main pointer's Y, where its X passes 39.
#[tactic(auto, unfolding(crate::specs::Onward::down))]
fn down(mut registers: [u8; 8]) -> [u8; 8]
    ensures { result ≡ Rattle.moves.specs.Onward.down registers }
{
    if registers[7] % 64 == 39 {
        registers[6] = next_y(registers[6]);
    }
    registers
}

// The registers R0 to R7 after a step of a move.
#[tactic(auto, unfolding(crate::specs::Onward::onward))]
pub fn onward(registers: [u8; 8], stops: bool) -> [u8; 8]
    requires { BothOnPage registers }
    ensures { result ≡ Rattle.moves.specs.Onward.onward stops registers }
{
    if stops {
        across(registers)
    } else {
        across(down(registers))
    }
}

// A move with a stop ends with the step in which either X was 39.
#[tactic(auto, unfolding(crate::specs::Onward::is_end))]
pub fn is_end(registers: [u8; 8], stops: bool) -> bool
    ensures { result ≡ is_end stops registers }
{
    stops && (registers[5] % 64 == 39 || registers[7] % 64 == 39)
}
