//! Laws of the definitions of lines: worked lines have the codes that are written beside them, and a line has the label
//! with which its tokens begin.
#![tactic(auto)]

mod laws;

pub use laws::{labels_of_lines, worked_codes};
