//! Looking at a machine, and stepping it: the state indicator, and runs of steps that end with a
//! line or when nothing runs.
#![tactic(auto)]

mod indicator;
mod laws;
mod stepper;
mod watched;

pub use apl_machine::Level;
pub use indicator::state_indicator;
pub use laws::runs;
pub use stepper::Stepper;
pub use watched::{stops, traces};
