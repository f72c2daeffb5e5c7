//! The stop and trace vectors of functions.
#![tactic(auto)]

mod vectors;

pub use vectors::{MOST_LINES, Vectors};
