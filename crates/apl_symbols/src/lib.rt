//! What a statement is written with beside its constants: names, system names, primitive functions
//! and the other symbols.
#![tactic(auto)]

mod class;
mod name;
mod primitive;
mod symbol;
mod system;

pub use class::Class;
pub use name::{MOST, Name};
pub use primitive::{Operator, Primitive};
pub use symbol::{Symbol, symbols_by_glyph};
pub use system::SystemName;
