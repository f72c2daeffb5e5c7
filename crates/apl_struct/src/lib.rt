//! The functions of structure and selection by their symbols.
#![tactic(auto)]

mod dyadic;
mod monadic;

pub use apl_select::{index, index_assign};
pub use dyadic::structural2;
pub use monadic::structural1;
