//! Elements chosen from arrays: compression, expansion, indexing and indexed assignment.
#![tactic(auto)]

mod assignment;
mod bits;
mod compression;
mod indexing;
mod lines;
mod reach;
mod slots;
mod vector;

pub use assignment::{index_assign, index_assign_into};
pub use compression::{compress, expand};
pub use indexing::index;
