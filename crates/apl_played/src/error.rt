//! Why lines aren't played on a workspace.
ghost use Rattle.std.specs.Prelude.{◌≡◌};
ghost use Rattle.apl_played.specs.Numbers.{play_number};

use apl_workspace::LoadError;
use std::alloc::AllocError;
use thiserror::Error;

/// Why lines aren't played on a workspace. The file that was given is still that of the workspace.
#[derive(Drop, Debug, Error)]
pub enum PlayError {
    /// The bytes are no workspace's, for this reason, which isn't that memory ran out.
    #[error("the workspace is refused: {0}")]
    Workspace(LoadError),
    /// A line has over 2,000 bytes before its line feed. The transcript of the complete lines before it.
    #[error("a line has over 2,000 bytes")]
    LineTooLong(Vec<u8>),
    /// A byte stands behind 1,000,000 lines. The transcript of these.
    #[error("there are over 1,000,000 lines")]
    TooManyLines(Vec<u8>),
    #[error("out of memory")]
    Memory,
}

impl PlayError {
    /// Its number: that of the refusal of a workspace, from 1 to 7; 8 out of memory; 14 and 15 for lines that are refused, 10
    /// more than the number of the run's error.
    pub fn number(&self) -> u8
        ensures { result ≡ play_number self.now }
    {
        match self {
            PlayError::Workspace(error) => error.number(),
            PlayError::Memory => 8,
            PlayError::LineTooLong(_) => 14,
            PlayError::TooManyLines(_) => 15,
        }
    }
}

impl From<AllocError> for PlayError {
    ghost use Rattle.std.specs.Prelude.{◌≡◌};
    ghost use Rattle.apl_played.specs.declared.error.PlayError.TheVariants.{Memory};

    ghost from_gives = { λ _ e. e ≡ Memory };

    fn from(_error: AllocError) -> PlayError {
        PlayError::Memory
    }
}

impl From<LoadError> for PlayError {
    ghost use Rattle.std.specs.Prelude.{◌≡◌};
    ghost use Rattle.apl_played.specs.Playing.{error_of_load};

    ghost from_gives = { λ e r. r ≡ error_of_load e };

    fn from(error: LoadError) -> PlayError {
        match error {
            LoadError::Memory => PlayError::Memory,
            _ => PlayError::Workspace(error),
        }
    }
}
