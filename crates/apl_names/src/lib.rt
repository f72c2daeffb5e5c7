//! Names and what they stand for: variables, labels and functions, under dynamic scope.
#![tactic(auto)]

mod binding;
mod bound;
mod function;
mod global_scope;
mod hidden;
mod names;
mod own;
mod ready;
mod recent;
mod slots;

pub use binding::Binding;
pub use bound::Bound;
pub use function::DefinedFunction;
pub use names::Names;
pub use recent::LikelySlot;
