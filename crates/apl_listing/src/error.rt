//! Why a text is no listing.
ghost use Rattle.std.specs.Prelude.{◌≡◌};
ghost use Rattle.apl_listing.specs.declared.error.AsmError.TheVariants.{Memory};
ghost use Rattle.apl_listing.specs.Assembly.{error_number};

use std::alloc::{AllocError, AllocFailed};
use thiserror::Error;

/// Why a text was not assembled.
#[derive(Clone, Copy, PartialEq, Eq, Debug, Error)]
pub enum AsmError {
    /// The text is no listing. Its first `line` lines, and no more, are the first lines of one.
    #[error("only the first {line} lines are those of a listing")]
    Form { line: usize },
    #[error("out of memory")]
    Memory,
}

impl AsmError {
    /// Its number, 1 or 2.
    pub fn number(self) -> u8
        ensures { result ≡ error_number self }
    {
        match self {
            AsmError::Memory => 1,
            AsmError::Form { .. } => 2,
        }
    }
}

impl From<AllocError> for AsmError {
    ghost from_gives = { λ _ e. e ≡ Memory };

    fn from(_e: AllocError) -> AsmError {
        AsmError::Memory
    }
}

impl<T: Drop> From<AllocFailed<T>> for AsmError {
    ghost from_gives = { λ _ e. e ≡ Memory };

    fn from(_e: AllocFailed<T>) -> AsmError {
        AsmError::Memory
    }
}
