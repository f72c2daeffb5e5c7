//! The file that a run saves in: one run holds it, and new bytes take its place whole or not at all.
#![tactic(auto)]

mod content;
mod error;
mod fresh;
mod held;
mod keeping;
mod lock;
mod place;
mod rights;

pub use error::FileError;
pub use held::Held;
