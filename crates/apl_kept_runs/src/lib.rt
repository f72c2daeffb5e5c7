//! The laws that what a run leaves can be saved and is the same when it is loaded, and that a run may be saved, loaded again
//! and gone on with at any of its stops.
#![tactic(auto)]

mod laws;

pub use laws::{cut_runs_can_be_kept, kept_runs_are_the_same, runs_can_be_kept};
