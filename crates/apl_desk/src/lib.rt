//! Many sessions side by side: each goes its way as if it were alone.
#![tactic(auto)]

mod desk;

pub use desk::{Desk, DeskError};
