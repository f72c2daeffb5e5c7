//! Which workspace a file holds, or why it holds none.
#![tactic(auto)]

mod arrays;
mod built;
mod contexts;
mod definitions;
mod error;
mod field;
mod functions;
mod lines;
mod links;
mod loading;
mod locals;
mod names;
mod operands;
mod pendent;
mod stack;
mod texts;
mod values;
mod variables;

pub use error::LoadFault;
pub use loading::parts_of;
