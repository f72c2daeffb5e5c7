//! Runs that are cut at their stops: each stop is answered, and the run goes on. However a run is
//! cut, it is the same run. And whatever events come, the contexts stand in order.
#![tactic(auto)]

mod law;
mod resume;

pub use law::{always_in_order, cut_in_single_steps, cut_is_uncut, quiet_where_clean};
pub use resume::resume_all;
