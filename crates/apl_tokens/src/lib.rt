//! The tokens of a line.
#![tactic(auto)]

mod brackets;
mod checking;
mod class;
mod line;
mod measuring;
mod place;
mod reading;
mod token;
mod writing;

pub use checking::is_read;
pub use line::{TokenError, one_answer, one_reading, tokens, worked_faults, worked_readings};
pub use token::{Kind, Numbers, Token};
pub use writing::spell;
