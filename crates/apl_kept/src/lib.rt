//! A session that a host holds from one call to the next: it types lines, gives steps in slices, may interrupt between two, takes what
//! was written, and looks at names, calls and functions without a step.
#![tactic(auto)]

mod error;
mod indicator;
mod kept;
mod laws;
mod names;
mod standing;

pub use error::KeptError;
pub use indicator::{Locals, StandingCall};
pub use kept::{Kept, open};
pub use laws::{output_may_be_taken, sliced_lines_are_one, slices_are_one};
pub use names::{Named, Reading, Shape};
pub use standing::{Place, Told};
