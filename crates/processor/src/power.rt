// Power-up, of an EF9345 with 16 blocks or of a board that the caller names.
ghost use Rattle.std.specs.Prelude.{◌≡◌, Ok, Err};
ghost use Rattle.basics.specs.Choice.{pick};
ghost use Rattle.board.specs.Boards.{is_part, part_named, is_board};
ghost use Rattle.command.specs.declared.answer.BoardRefusal.TheVariants.{WrongBoard, UnknownPart};
ghost use Rattle.processor.specs.States.{powered_up, power_up};
ghost use Rattle.processor.specs.PowerUps.{powered_up_board};

use crate::state::Processor;
use board::{BLOCKS, Part, is_board};
use command::answer::{BoardRefusal, PowerUp};

// The state after a power-up, with the answer.
#[derive(Clone, Copy)]
pub struct PoweredUp {
    pub processor: Processor,
    pub answer: PowerUp,
}

// The state of a part with so many blocks.
#[tactic(auto, unfolding(crate::specs::States::powered_up, basics::specs::Parts::joined))]
fn powered_up(part: Part, blocks: u8) -> Processor
    ensures { result ≡ powered_up part blocks }
{
    Processor {
        registers: [0x91, 0, 0, 0, 0, 0, 0, 0],
        indirect: [0; 8],
        lxm: false,
        lxa: false,
        phase: 0,
        marks: [true; 25],
        blocks,
        busy: false,
        part,
    }
}

// The part of a board, unless 14 or 12 refuses it, in this order.
fn board_part(number: u8, blocks: u8) -> Result<Part, BoardRefusal>
    ensures { result ≡ pick (is_part number) (pick (is_board (part_named number) blocks) (Ok (part_named number)) (Err WrongBoard)) (Err UnknownPart) }
{
    let part = Part::try_from(number)?;
    if !is_board(part, blocks) {
        return Err(BoardRefusal::WrongBoard);
    }
    Ok(part)
}

impl Processor {
    pub fn power_up() -> Self
        ensures { result ≡ power_up }
    {
        powered_up(Part::Ef9345, BLOCKS)
    }

    // A number that names no part, or blocks that it has not, are refused, with the state of the 16 block board.
    #[tactic(auto, unfolding(crate::specs::PowerUps::powered_up_board))]
    pub fn power_up_board(part: u8, blocks: u8) -> PoweredUp
        ensures { result ≡ powered_up_board part blocks }
    {
        match board_part(part, blocks) {
            Ok(part) => PoweredUp {
                processor: powered_up(part, blocks),
                answer: Ok(()),
            },
            Err(refusal) => PoweredUp {
                processor: Processor::power_up(),
                answer: Err(refusal),
            },
        }
    }
}
