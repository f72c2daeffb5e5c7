//! A workspace in parts: taken apart, and put together again.
#![tactic(auto)]

mod laws;
mod parts;
mod restoring;
mod resuming;
mod standing;
mod taking;

pub use laws::{whole_parts_are_kept, whole_parts_stand_in_order};
pub use parts::{CallPart, ContextPart, FunctionPart, Parts, RestPart, Restored, StatementPart};
pub use restoring::restored;
pub use resuming::bind_labels;
pub use taking::taken;
