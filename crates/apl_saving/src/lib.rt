//! The workspace file of a machine's parts.
#![tactic(auto)]

mod arrays;
mod contexts;
mod functions;
mod laws;
mod lines;
mod saved;
mod texts;
mod whole;

pub use laws::kept_parts_are_readable;
pub use whole::file_of;
