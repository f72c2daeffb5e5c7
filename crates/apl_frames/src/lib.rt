//! Lines that are being done: their code, how much of it is done, and the operand stack.
#![tactic(auto)]

mod frame;
mod stack;

pub use frame::{Frame, FrameBuf, Stage};
pub use stack::OperandStack;
