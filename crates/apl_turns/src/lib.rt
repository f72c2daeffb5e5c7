//! Axes of arrays in another order, and axes taken the other way or round.
#![tactic(auto)]

mod lines;
mod mirrored;
mod numbered_axes;
mod rotation;
mod views;

pub use rotation::rotate;
pub use views::{reverse, transpose, transpose_by};
