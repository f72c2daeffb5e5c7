//! The machine: it does typed statements, calls of functions and texts that are executed, a phrase a
//! step.
#![tactic(auto)]

mod arriving;
mod branching;
mod departure;
mod ending;
mod entering;
mod executing;
mod fast;
mod frequent;
mod laws;
mod locals;
mod machine;
mod next;
mod objects;
mod pieces;
mod reports;
mod returns;
mod standing;
mod stepping;
mod system;
mod traces;
mod workspace;

pub use apl_frames::Frame;
pub use apl_machine_state::{Blame, Level, LineKind, Operand, OutLine, Progress, Slots};
pub use apl_parts::{CallPart, ContextPart, FunctionPart, Parts, RestPart, StatementPart};
pub use laws::steps_are_counted;
pub use machine::{BeginError, Machine};
pub use standing::Standing;
pub use stepping::Made;
