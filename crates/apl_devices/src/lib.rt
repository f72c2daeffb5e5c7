//! What sessions read from and write to: readers and writers that tell whether they have failed, over
//! streams and in memory.
#![tactic(auto)]

mod devices;
mod streams;
mod tape;

pub use devices::{Failed, Sink, Source, read_byte, write_all};
pub use streams::Device;
pub use tape::Tape;
