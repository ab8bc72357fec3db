// A step of a move.
ghost use Rattle.std.specs.Prelude.{◌≡◌, true, false, length, ◌≤◌, Some};
ghost use Rattle.board.specs.Boards.{bytes_of};
ghost use Rattle.command.specs.declared.Command.TheVariants.{Move};
ghost use Rattle.moves.specs.Onward.{BothOnPage};
ghost use Rattle.processor.specs.States.{chip};
ghost use Rattle.processor.specs.Pointers.{pointer_of};
ghost use Rattle.processor.specs.Access.{outcome_of, is_astray, is_unfitted};
ghost use Rattle.processor.specs.Moves.{passed_on, moved, step_of, stepped};

use crate::both::{are_bare, are_legal};
use crate::carry::carry_all;
use crate::execute::Answered;
use crate::pointer::pointer;
use crate::state::Processor;
use board::bytes_of;
use command::answer::Refusal;
use command::{Command, command_for};
use moves::onward::{is_end, onward};

// The pointers go on, and a move with a stop may end.
#[tactic(auto, unfolding(crate::specs::Moves::passed_on))]
fn passed_on(mut p: Processor, stops: bool) -> Processor
    requires { BothOnPage p.registers }
    ensures { result ≡ passed_on stops p }
{
    let before = p.registers;
    let after = onward(before, stops);
    p.registers = after;
    p.busy = !is_end(before, stops);
    p
}

// One character position.
fn position(p: Processor, memory: &mut [u8], bytes: u8, auxiliary: bool, stops: bool) -> Processor
    requires { (length memory.old ≡ bytes_of p.blocks) × (1 ≤ bytes) × (bytes ≤ 3) × (is_astray (Some (Move bytes auxiliary stops)) p ≡ false) × (is_unfitted (Some (Move bytes auxiliary stops)) p ≡ false) }
    ensures { chip result memory.new ≡ Rattle.processor.specs.Moves.position bytes auxiliary stops (chip p memory.old) }
{
    let from = pointer(p, auxiliary);
    let to = pointer(p, !auxiliary);
    let next = carry_all(p, memory, from, to, bytes);
    passed_on(next, stops)
}

// A move whose pointers are not legal and fitted, which none that started has, ends.
fn move_on(p: Processor, memory: &mut [u8], bytes: u8, auxiliary: bool, stops: bool) -> Processor
    requires { (length memory.old ≡ bytes_of p.blocks) × (1 ≤ bytes) × (bytes ≤ 3) }
    ensures { chip result memory.new ≡ moved (Some (Move bytes auxiliary stops)) (chip p memory.old) }
{
    if !are_legal(p) || are_bare(p, bytes) {
        return p.with_busy(false);
    }
    position(p, memory, bytes, auxiliary, stops)
}

// Where a move runs. What is no move ends.
#[tactic(auto, unfolding(crate::specs::Moves::step_of, crate::specs::Moves::moved, crate::specs::Moves::position_of))]
fn step_of(p: Processor, memory: &mut [u8]) -> Processor
    requires { length memory.old ≡ bytes_of p.blocks }
    ensures { chip result memory.new ≡ step_of (chip p memory.old) }
{
    if !p.busy {
        return p;
    }
    match command_for(p.part, p.registers[0]) {
        Some(Command::Move(bytes, auxiliary, stops)) => move_on(p, memory, bytes, auxiliary, stops),
        _ => p.with_busy(false),
    }
}

impl Processor {
    // One character position of the move that runs; nothing where none does.
    #[tactic(auto, unfolding(crate::specs::Moves::stepped))]
    pub fn step(self, memory: &mut [u8]) -> Answered
        ensures { outcome_of result memory.new ≡ stepped (chip self memory.old) }
    {
        if memory.len() != bytes_of(self.blocks) {
            return self.answering(Err(Refusal::WrongMemory));
        }
        step_of(self, memory).answering(Ok(0))
    }
}
