// What an operation leaves, handed to the caller: the processor in its 64 bytes, unless nothing has changed, and the answer as one number.
ghost use Rattle.std.specs.Prelude.{◌≡◌, ◌<◌};
ghost use Rattle.command.specs.Answers.{number_of, value_of};
ghost use Rattle.packing.specs.Layouts.{packed};
ghost use Rattle.binturamis.specs.Calls.{word, is_refusal, bytes_after};

use crate::word::word;
use command::answer::Numbered;
use packing::layout::packed;
use processor::execute::Answered;
use processor::state::Processor;

// Of a write that has taken place, whether or not its command was refused.
pub fn leave_written(p: &mut [u8; 64], answered: Answered) -> u32
    ensures { (p.new ≡ packed answered.processor) × (result ≡ word (number_of answered.answer) (value_of answered.answer)) }
{
    *p = packed(answered.processor);
    word(answered.answer)
}

// Of a read, a phase change, a step or a draw.
pub fn leave<A: Numbered + Copy>(p: &mut [u8; 64], after: Processor, answer: A) -> u32
    requires { A.valued answer < 65536 }
    ensures { (p.new ≡ bytes_after (is_refusal (A.numbered answer)) p.old after) × (result ≡ word (A.numbered answer) (A.valued answer)) }
{
    if answer.number() != 0 {
        return word(answer);
    }
    *p = packed(after);
    word(answer)
}
