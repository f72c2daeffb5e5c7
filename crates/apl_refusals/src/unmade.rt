//! Why a call isn't made.

use apl_workspace::{LoadError, SaveError};
use std::alloc::AllocError;

/// Why a call isn't made. All is as before it.
pub enum Unmade {
    /// It was refused its memory.
    Memory,
    /// It answers something else.
    Other,
}

impl From<AllocError> for Unmade {
    fn from(_error: AllocError) -> Unmade {
        Unmade::Memory
    }
}

impl From<SaveError> for Unmade {
    fn from(error: SaveError) -> Unmade {
        match error {
            SaveError::Memory => Unmade::Memory,
            SaveError::Running => Unmade::Other,
        }
    }
}

impl From<LoadError> for Unmade {
    fn from(error: LoadError) -> Unmade {
        match error {
            LoadError::Memory => Unmade::Memory,
            _ => Unmade::Other,
        }
    }
}
