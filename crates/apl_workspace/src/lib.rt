//! Workspaces as files: saved, and loaded again.
#![tactic(auto)]

mod error;
mod laws;
mod loading;
mod saving;

pub use error::{LoadError, SaveError};
pub use laws::files_stay_as_they_were;
pub use loading::load;
pub use saving::save;
