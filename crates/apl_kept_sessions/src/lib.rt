//! The laws that whatever is typed to a machine, and however it steps and is interrupted, it comes to
//! states alone that can be saved, and that what is loaded goes on as what it was saved of.
#![tactic(auto)]

mod laws;

pub use laws::{
    sessions_are_the_same, sessions_go_on, sessions_keep_reached, sessions_keep_savable,
};
