//! Arrays of whole numbers or of characters, with a shape.
#![tactic(auto)]

mod array;
mod axis;
mod axis_choice;
mod both;
mod cell;
mod cells;
mod checks;
mod dense;
mod elements;
mod equality;
mod gather;
mod join;
mod lane;
mod laws;
mod making;
mod numbers;
mod origin;
mod put;
mod shape;
mod squeeze;
mod stop;
mod strided;
mod structural;
mod view;
mod view_elements;
mod written;

pub use array::Array;
pub use axis::{Axis, along, copy_axes};
pub use axis_choice::Along;
pub use both::{Both, Typed, Wide};
pub use cell::{Cell, Ravel};
pub use cells::Cells;
pub use checks::{numbers_in, within_limits};
pub use elements::Elements;
pub use lane::Lane;
pub use laws::views_by_index_list;
pub use numbers::{NumberSlice, NumberVec};
pub use origin::Origin;
pub use shape::{BOTH_RANKS, MAX_ELEMENTS, MAX_RANK, is_in_bounds, joined_shape, place_of, size};
pub use squeeze::{convert, holds, range_of};
pub use stop::Stop;
pub use strided::Strided;
pub use structural::Structural;
pub use view::View;
pub use view_elements::ViewElements;
