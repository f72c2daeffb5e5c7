//! Faults and their reports.
#![tactic(auto)]

mod fault;
mod reports;

pub use fault::Fault;
pub use reports::{Call, fault_line, place, report};
