//! Which states a workspace file can hold, and the laws that a machine comes to such states alone, and that a state which is saved and
//! loaded again is the same state.
#![tactic(auto)]

mod laws;

pub use laws::{
    clear_is_savable, definitions_keep_savable, erasures_keep_savable, interrupts_keep_savable,
    loaded_has_the_parts, loaded_is_savable, parts_are_ruled, reached_is_savable,
    reached_is_the_same, saved_is_the_same, statements_keep_savable, steps_keep_savable,
};
