// The execution of a command, after the access that asked for it.
ghost use Rattle.std.specs.Prelude.{◌≡◌, false, length, ℕ, List, Some, Err, IfOk, IfErr};
ghost use Rattle.board.specs.Boards.{bytes_of};
ghost use Rattle.command.specs.Commands.{Asked, command_for};
ghost use Rattle.processor.specs.States.{chip, register_of};
ghost use Rattle.processor.specs.Access.{outcome, outcome_of, is_astray, is_unfitted, ran, executed};

use crate::both::{are_bare, are_legal};
use crate::byte::{krf, oct};
use crate::pointer::pointer;
use crate::position::krl;
use crate::state::Processor;
use address::fitted::{is_code_fitted, is_narrow_fitted};
use address::triple::is_legal;
use command::answer::{Answer, Refusal};
use command::{Command, command_for};

// The state after an access, with the answer.
#[derive(Clone, Copy)]
pub struct Answered {
    pub processor: Processor,
    pub answer: Answer,
}

impl Processor {
    pub fn answering(self, answer: Answer) -> Answered
        ensures { (result.processor ≡ self) × (result.answer ≡ answer) }
    {
        Answered {
            processor: self,
            answer,
        }
    }
}

// The command's pointer is not legal; of a move either.
fn is_astray(command: Command, p: Processor) -> bool
    requires { Asked command }
    ensures { result ≡ is_astray (Some command) p }
{
    match command {
        Command::Nop | Command::Ind(..) => false,
        Command::Krf(..) => !is_legal(pointer(p, false)),
        Command::Oct(_, auxiliary, _) => !is_legal(pointer(p, auxiliary)),
        Command::Krl(..) => !is_legal(pointer(p, false)),
        Command::Move(..) => !are_legal(p),
    }
}

// One of its bytes is not fitted, where each pointer that it uses is legal.
fn is_unfitted(command: Command, p: Processor) -> bool
    requires { Asked command × (is_astray (Some command) p ≡ false) }
    ensures { result ≡ is_unfitted (Some command) p }
{
    match command {
        Command::Nop | Command::Ind(..) => false,
        Command::Krf(..) => !is_code_fitted(p.blocks, pointer(p, false)),
        Command::Oct(_, auxiliary, _) => p.blocks <= pointer(p, auxiliary).z,
        Command::Krl(..) => !is_narrow_fitted(p.blocks, pointer(p, false)),
        Command::Move(bytes, _, _) => are_bare(p, bytes),
    }
}

// What a command does where nothing refuses it.
#[tactic(auto, unfolding(crate::specs::Access::indirect))]
fn effect(p: Processor, memory: &mut [u8], command: Command) -> Processor
    requires { (length memory.old ≡ bytes_of p.blocks) × Asked command × (is_astray (Some command) p ≡ false) × (is_unfitted (Some command) p ≡ false) }
    ensures { chip result memory.new ≡ Rattle.processor.specs.Access.effect (Some command) (chip p memory.old) }
{
    match command {
        Command::Nop => p.with_busy(false),
        Command::Ind(r, true) => p.indirect_read(r),
        Command::Ind(r, false) => p.indirect_written(r),
        Command::Krf(reads, increments) => krf(p, memory, reads, increments),
        Command::Oct(reads, auxiliary, increments) => {
            oct(p, memory, reads, auxiliary, increments)
        }
        Command::Krl(reads, increments) => krl(p, memory, reads, increments),
        Command::Move(..) => p.cleared().with_busy(true),
    }
}

// 4 and 11, in this order, of a command that is listed; a refusal has the value that the access gave.
#[tactic(auto, unfolding(crate::specs::Access::ran))]
fn judged(command: Command, p: Processor, value: u8) -> Result<(), Refusal>
    requires { Asked command }
    ensures ok { IfOk result (λ done. (is_astray (Some command) p ≡ false) × (is_unfitted (Some command) p ≡ false)) }
    ensures err { IfErr result (λ r. (m : List ℕ) → outcome (chip p m) (Err r) ≡ ran (Some command) value (chip p m)) }
{
    if is_astray(command, p) {
        return Err(Refusal::BadPointer(value));
    }
    if is_unfitted(command, p) {
        return Err(Refusal::NotFitted(value));
    }
    Ok(())
}

// The command, if bit 3 of the address asks for it. What is refused is handed back as it was.
#[tactic(auto, unfolding(crate::specs::Access::executed, crate::specs::Access::ran))]
pub fn execute(p: Processor, memory: &mut [u8], address: u8, value: u8) -> Answered
    requires { length memory.old ≡ bytes_of p.blocks }
    ensures { outcome_of result memory.new ≡ executed address value (chip p memory.old) }
{
    if address / 8 % 2 == 0 {
        return p.answering(Ok(value));
    }
    let Some(command) = command_for(p.part, p.registers[0]) else {
        return p.answering(Err(Refusal::NotListed(value)));
    };
    if let Err(refusal) = judged(command, p, value) {
        return p.answering(Err(refusal));
    }
    effect(p, memory, command).answering(Ok(value))
}
