//! Which workspace a file holds: what its fields stand for, and the rules that these keep to.
#![tactic(auto)]

mod laws;

pub use laws::{one_file_of, one_workspace};
