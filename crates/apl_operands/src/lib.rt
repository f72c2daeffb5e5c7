//! The operands of instructions: where they lie, and what a phrase takes of them.
#![tactic(auto)]

mod operands;

pub use operands::{
    Given, Held, Operands, arguments, fetch, last_operand, left, left_of, left_with_last,
    one_value, two_values, value_from,
};
