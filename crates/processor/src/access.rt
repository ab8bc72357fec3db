// Register accesses and the phase change.
ghost use Rattle.std.specs.Prelude.{◌≡◌, ◌&&◌, eqb, Ok, Err};
ghost use Rattle.basics.specs.Bits.{bits};
ghost use Rattle.basics.specs.Choice.{pick};
ghost use Rattle.board.specs.Boards.{bytes_of};
ghost use Rattle.command.specs.declared.answer.Refusal.TheVariants.{WrongMemory, WrongAddress};
ghost use Rattle.processor.specs.States.{chip};
ghost use Rattle.processor.specs.Access.{outcome_of, written, read_out, turned};

use crate::execute::{Answered, execute};
use crate::state::Processor;
use board::bytes_of;
use command::answer::Refusal;
use command::held::{is_read_held, is_write_held};
use phases::phase::phase_marks;
use shown::page::Page;

// The high four bits of the address are 2.
fn is_chosen(address: u8) -> bool
    ensures { result ≡ eqb (bits 4 4 address) 2 }
{
    address / 16 == 2
}

impl Processor {
    // 1 and 2, in this order, before an access takes place.
    fn admits(self, memory: usize, address: u8) -> Result<(), Refusal>
        ensures { result ≡ pick (eqb memory (bytes_of self.blocks)) (pick (eqb (bits 4 4 address) 2) (Ok tt) (Err WrongAddress)) (Err WrongMemory) }
    {
        if memory != bytes_of(self.blocks) {
            return Err(Refusal::WrongMemory);
        }
        if !is_chosen(address) {
            return Err(Refusal::WrongAddress);
        }
        Ok(())
    }

    // A register is written; then the command runs, if the address asks for it. While a move runs, only a NOP is.
    #[tactic(auto, unfolding(crate::specs::Access::written, crate::specs::Access::checked))]
    pub fn write(mut self, memory: &mut [u8], address: u8, value: u8) -> Answered
        ensures { outcome_of result memory.new ≡ written address value (chip self memory.old) }
    {
        if let Err(refusal) = self.admits(memory.len(), address) {
            return self.answering(Err(refusal));
        }
        if is_write_held(self.busy, address, value) {
            return self.answering(Err(Refusal::Busy));
        }
        execute(self.with_register(address, value), memory, address, 0)
    }

    // A register is read; then the command runs, if the address asks for it, and may store. While a move runs, only the status is read.
    #[tactic(auto, unfolding(crate::specs::Access::read_out, crate::specs::Access::checked))]
    pub fn read(mut self, memory: &mut [u8], address: u8) -> Answered
        ensures { outcome_of result memory.new ≡ read_out address (chip self memory.old) }
    {
        if let Err(refusal) = self.admits(memory.len(), address) {
            return self.answering(Err(refusal));
        }
        if is_read_held(self.busy, address) {
            return self.answering(Err(Refusal::Busy));
        }
        let value = self.register(address);
        execute(self, memory, address, value)
    }

    // The phase change.
    #[tactic(auto, unfolding(crate::specs::Access::turned, crate::specs::Access::phased))]
    pub fn turn(mut self, memory: &[u8], phase: u8) -> Answered
        ensures { outcome_of result memory.now ≡ turned phase (chip self memory.now) }
    {
        if memory.len() != bytes_of(self.blocks) {
            return self.answering(Err(Refusal::WrongMemory));
        }
        if 1 < phase {
            return self.answering(Err(Refusal::WrongPhase));
        }
        if self.phase == phase {
            return self.answering(Ok(0));
        }
        let page = Page {
            memory,
            shown: self.shown(),
        };
        self.marks = phase_marks(self.marks, &page);
        self.phase = phase;
        self.answering(Ok(0))
    }
}
