//! The order in which contexts stand above one another, what a state keeps beside it, and the laws that steps, interrupts and
//! statements keep it.
#![tactic(auto)]

mod laws;

pub use laws::{
    clear_is_kept, definitions_keep, erasures_keep, interrupts_keep, interrupts_keep_order,
    statements_keep, statements_keep_order, steps_keep, steps_keep_order,
};
