//! Folds of numbers, and reduction and scan along an axis.
#![tactic(auto)]

mod characters;
mod choice;
mod columns;
mod ends;
mod fold;
mod kept;
mod lanes;
mod line;
mod lines;
mod order;
mod prefixes;
mod quarters;
mod reduction;
mod running;
mod scale;
mod scanning;
mod steps;
mod sums;
mod swing;
mod truths;
mod walk;

pub use fold::fold_numbers;
pub use lanes::{has_room, most, number_at};
pub use order::{Ordered, in_order};
pub use reduction::reduce;
pub use scanning::scan;
