//! The listing of a function: the instructions of each of its lines, as they would be if the line
//! began now.
#![tactic(auto)]

mod binding;
mod laws;
mod listings;

pub use laws::one_list;
pub use listings::code_of;
