//! Arrays in another shape: shape, ravel and reshape, the first or last elements along each axis and the others, and arrays joined.
#![tactic(auto)]

mod beside;
mod blocks;
mod dropping;
mod joining;
mod lengths;
mod named;
mod pairs;
mod parts;
mod pieces;
mod rounds;
mod shapes;
mod taking;
mod vectors;

pub use dropping::drop_items;
pub use joining::catenate;
pub use shapes::{ravel, reshape, shape};
pub use taking::take_items;
