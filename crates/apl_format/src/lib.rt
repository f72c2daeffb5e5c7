//! The lines that show an array, and an array as characters.
#![tactic(auto)]

mod columns;
mod examples;
mod formatted;
mod lines;
mod number;
mod part;
mod row;
mod width;

pub use examples::{worked_displays, worked_formats};
pub use formatted::format1;
pub use lines::display;
