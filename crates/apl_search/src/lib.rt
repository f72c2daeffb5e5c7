//! Functions that count, order, look up and write numbers by bases.
#![tactic(auto)]

mod bytes;
mod counting;
mod dealing;
mod decoding;
mod dividing;
mod encoding;
mod grading;
mod index;
mod listing;
mod lookup;
mod marks;
mod membership;
mod places;
mod standing;
mod table;

pub use counting::iota;
pub use decoding::decode;
pub use encoding::encode;
pub use grading::{grade_down, grade_up};
pub use membership::member;
pub use places::index_of;
