//! The state of a machine: what its definitions speak of, and the types that both the machine and
//! its definitions use.
#![tactic(auto)]

mod level;
mod operand;
mod output;
mod texts;
mod watch;

pub use level::Level;
pub use operand::{Operand, Slots, Small};
pub use output::{Blame, LineKind, OutLine, Progress};
pub use texts::colon_of;
pub use watch::Watch;
