//! Sessions with a machine: lines of bytes that are typed, commands and definitions of functions
//! among them, steps and interrupts.
#![tactic(auto)]

mod commands;
mod decoding;
mod definition;
mod session;
mod words;

pub use session::{Bytes, DriveError, Event, FeedError, Session};
