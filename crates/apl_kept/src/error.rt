//! Why a held session doesn't do something.
ghost use Rattle.std.specs.Prelude.{◌≡◌};
ghost use Rattle.apl_kept.specs.Numbers.{kept_number};

use std::alloc::AllocError;
use thiserror::Error;

/// Why a line isn't typed, or a workspace isn't saved. The session is as before.
#[derive(Clone, Copy, Debug, PartialEq, Eq, Error)]
pub enum KeptError {
    /// A statement runs.
    #[error("the session runs")]
    Running,
    /// The line has over 2,000 bytes.
    #[error("a line has over 2,000 bytes")]
    LineTooLong,
    /// A line feed is among the bytes of the line.
    #[error("a line feed is within a line")]
    LineFeed,
    #[error("out of memory")]
    Memory,
}

impl KeptError {
    /// Its number: 8 and 14 as in a call of the whole machine (`apl_played`), 16 where the session runs, 19 for a line feed.
    pub fn number(self) -> u8
        ensures { result ≡ kept_number self }
    {
        match self {
            KeptError::Memory => 8,
            KeptError::LineTooLong => 14,
            KeptError::Running => 16,
            KeptError::LineFeed => 19,
        }
    }
}

impl From<AllocError> for KeptError {
    ghost use Rattle.std.specs.Prelude.{◌≡◌};
    ghost use Rattle.apl_kept.specs.declared.error.KeptError.TheVariants.{Memory};

    ghost from_gives = { λ _ e. e ≡ Memory };

    fn from(_error: AllocError) -> KeptError {
        KeptError::Memory
    }
}
