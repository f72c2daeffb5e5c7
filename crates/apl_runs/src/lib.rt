//! Runs over whole inputs: each line is typed and gets its steps, and what still runs then is
//! interrupted. Where a line comes to a stop, it ends there, or the stop is answered. Or the lines
//! are for the sessions of a desk, which get their steps in turn.
#![tactic(auto)]

mod desks;
mod input;
mod law;
mod lines;
mod listener;
mod manner;
mod rounds;
mod runs;

pub use apl_devices::{Device, Failed, Sink, Source, Tape};
pub use desks::run_desk;
pub use law::lines_leave_idle;
pub use runs::{RunError, run, run_resumed};
