// Why lines define no function.
ghost use Rattle.std.specs.Prelude.{◌≡◌};
ghost use Rattle.apl_defn.specs.declared.error.DefnError.TheVariants.{Memory};
ghost use Rattle.apl_defn.specs.Refusals.{error_number};

use std::alloc::{AllocError, AllocFailed};
use thiserror::Error;

/// Why a text is no header, or lines define no function. Of several the first in this order is
/// answered: Header, TooLong, Line, Twice.
#[derive(Clone, Copy, PartialEq, Eq, Debug, Error)]
pub enum DefnError {
    /// The header isn't one.
    #[error("the header isn't one")]
    Header,
    /// A name stands twice among those of the header and the labels.
    #[error("a name stands twice")]
    Twice,
    /// More than 999 lines stand behind the header.
    #[error("there are more than 999 lines")]
    TooLong,
    /// That line, counted from 1, is the first with a fault of its tokens.
    #[error("line {line} is faulty")]
    Line { line: usize },
    #[error("out of memory")]
    Memory,
}

impl DefnError {
    /// Its number, from 1 to 5.
    pub fn number(self) -> u8
        ensures { result ≡ error_number self }
    {
        match self {
            DefnError::Header => 1,
            DefnError::Twice => 2,
            DefnError::TooLong => 3,
            DefnError::Line { .. } => 4,
            DefnError::Memory => 5,
        }
    }
}

impl From<AllocError> for DefnError {
    ghost from_gives = { λ _ e. e ≡ Memory };

    fn from(_e: AllocError) -> DefnError {
        DefnError::Memory
    }
}

impl<T: Drop> From<AllocFailed<T>> for DefnError {
    ghost from_gives = { λ _ e. e ≡ Memory };

    fn from(_e: AllocFailed<T>) -> DefnError {
        DefnError::Memory
    }
}
