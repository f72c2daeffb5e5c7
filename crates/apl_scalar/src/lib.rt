//! Scalar functions of arrays, element by element.
#![tactic(auto)]

mod apply;
mod arithmetic;
mod blocks;
mod characters;
mod comparison;
mod computed;
mod dispatch;
mod divisible;
mod division;
mod exact_quotients;
mod examples;
mod function;
mod in_lanes;
mod in_narrow;
mod in_wide;
mod line;
mod logic;
mod narrow;
mod operand;
mod overflow;
mod powers;
mod products;
mod reciprocals;
mod room;
mod small_residues;
mod tells;
mod values;

pub use apply::{dyadic, monadic, number_of_two};
pub use arithmetic::{Difference, Maximum, Minimum, Product, Sum};
pub use comparison::{Compared, Comparison, Equal, Less, NotEqual, NotGreater, Swapped};
pub use dispatch::ByFunction;
pub use division::{Quotient, Residue};
pub use examples::{residues, worked_arrays, worked_values};
pub use function::{Dyadic, Monadic, Scalar};
pub use logic::{And, Connective, Logical, Nand, Nor, Or};
pub use overflow::{either, wider, widest};
pub use powers::Power;
pub use room::grow;
