//! The values of phrases whose functions are primitives.
#![tactic(auto)]

mod arguments;
mod operators;
mod table;
mod value;

pub use arguments::Arguments;
pub use value::{number_of_two, phrase_value};
