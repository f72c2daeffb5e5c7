//! Why a file isn't saved in.

use std::alloc::AllocError;
use std::io;
use thiserror::Error;

/// Why a file isn't saved in. It then holds what it held before. Its `Display` is the text for the user.
#[derive(Debug, Drop, Error)]
pub enum FileError {
    /// No file can be saved there: its folder can't be written, or what stands there is no regular file or may not be read and
    /// written.
    #[error("apl: save")]
    Refused,
    /// Another run holds it.
    #[error("apl: save: in use")]
    InUse,
    /// What it holds has changed since this run began, so the bytes are in this new file.
    #[error("apl: save: changed by another, so kept in {0}")]
    Changed(String),
    /// Writing failed, for this reason, so the bytes are in this new file.
    #[error("apl: save: {0}, so kept in {1}")]
    Failed(io::Error, String),
    /// Writing failed, for this reason, and the bytes could be kept nowhere else.
    #[error("apl: save: {0}, and no other folder can be written")]
    Lost(io::Error),
    #[error("apl: memory")]
    Memory,
}

impl From<AllocError> for FileError {
    ghost use Rattle.std.specs.Prelude.{◌≡◌};
    ghost use Rattle.apl_files.specs.declared.error.FileError.TheVariants.{Memory};

    ghost from_gives = { λ _ e. e ≡ Memory };

    fn from(_error: AllocError) -> FileError {
        FileError::Memory
    }
}

impl FileError {
    /// What refuses the file where this is what the system answers.
    pub(crate) fn refused(error: &io::Error) -> FileError {
        match error.kind() {
            io::ErrorKind::OutOfMemory => FileError::Memory,
            _ => FileError::Refused,
        }
    }

    /// Whether memory ran out.
    pub fn is_memory(&self) -> bool {
        match self {
            FileError::Memory => true,
            FileError::Failed(error, _) | FileError::Lost(error) => {
                error.kind() == io::ErrorKind::OutOfMemory
            }
            FileError::Refused | FileError::InUse | FileError::Changed(_) => false,
        }
    }
}
