//! Outer and inner products of arrays.
#![tactic(auto)]

mod attempt;
mod bounds;
mod inner_product;
mod joint;
mod line;
mod outer_product;
mod products;
mod small;
mod standing;
mod sums_of_products;

pub use apl_folds::{reduce, scan};
pub use inner_product::inner;
pub use outer_product::outer;
