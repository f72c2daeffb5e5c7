//! A whole call in bytes: lines are played on a workspace's file, which gives their transcript and the file of the workspace after
//! them. Nothing else is kept from one call to the next.
#![tactic(auto)]

mod answering;
mod error;
mod law;
mod memory;
mod playing;

pub use answering::{Answer, play_into};
pub use error::PlayError;
pub use law::cut_calls_are_one;
pub use playing::{Played, play};
