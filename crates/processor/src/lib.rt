// The processor: power-up, registers and commands, steps of a move, the phase and the draw. Its state is handed on
// as a value, and memory is
// lent beside it. So what stores asks for memory's length by the board of the state that it was given: a struct of
// both would no longer hand
// on the state as a value.
#![tactic(auto)]

pub mod access;
mod both;
pub mod byte;
pub mod carry;
pub mod draw;
pub mod execute;
pub mod pointer;
pub mod position;
pub mod power;
pub mod state;
pub mod step;
