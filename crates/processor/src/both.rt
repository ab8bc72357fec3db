// What a move asks of both pointers, before it begins and before each step.
ghost use Rattle.std.specs.Prelude.{◌≡◌, false, true, ◌&&◌, ◌||◌};
ghost use Rattle.basics.specs.Below.{any_below};
ghost use Rattle.address.specs.Triples.{legal};
ghost use Rattle.moves.specs.Spans.{is_bare_in};
ghost use Rattle.processor.specs.Pointers.{pointer_of};

use crate::pointer::pointer;
use crate::state::Processor;
use address::triple::is_legal;
use moves::span::is_bare;

// Both pointers are legal.
pub fn are_legal(p: Processor) -> bool
    ensures { result ≡ (legal (pointer_of false p) && legal (pointer_of true p)) }
{
    is_legal(pointer(p, false)) && is_legal(pointer(p, true))
}

// A byte of either is not fitted. Always compiled into its callers: each step asks it.
#[inline(always)]
pub fn are_bare(p: Processor, bytes: u8) -> bool
    ensures { result ≡ (any_below (is_bare_in p.blocks (pointer_of false p)) bytes || any_below (is_bare_in p.blocks (pointer_of true p)) bytes) }
{
    is_bare(p.blocks, pointer(p, false), bytes) || is_bare(p.blocks, pointer(p, true), bytes)
}
