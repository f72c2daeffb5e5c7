//! Flat instructions, one for each phrase of a statement, and codes made of them.
#![tactic(auto)]

mod code;
mod instr;
mod operation;
mod row;

pub use code::{Code, MOST};
pub use instr::{Action, Arguments, Instr, Source};
pub use operation::{Operation, Place};
pub use row::{Ending, Function, Row, Variable};
