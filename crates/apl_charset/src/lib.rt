//! The characters of the machine, texts of them, and lines of them as bytes.
#![tactic(auto)]

mod character;
mod line;
mod text;

pub use character::Ch;
pub use line::{CharFault, decode_line, encode, one_answer, one_decoding};
pub use text::{Text, in_set, is_word, push_ascii, push_number};
