//! Why bytes are no workspace file.
ghost use Rattle.std.specs.Prelude.{◌≡◌};
ghost use Rattle.apl_workspace_file.specs.Refusals.{refusal_number, refusal_of};
ghost use Rattle.apl_workspace_file.specs.declared.error.TreeError.TheVariants as tree;

use std::alloc::{AllocError, AllocFailed};
use thiserror::Error;

/// Why bytes weren't read as a workspace file.
#[derive(Clone, Copy, PartialEq, Eq, Debug, Error)]
pub enum ReadError {
    /// They aren't JSON.
    #[error("the file isn't JSON")]
    NotJson,
    /// They are JSON, but of another form.
    #[error("the file hasn't the form of a workspace")]
    Form,
    #[error("out of memory")]
    Memory,
}

impl ReadError {
    /// Its number: 1, 2 or 8.
    pub fn number(self) -> u8
        ensures { result ≡ refusal_number self }
    {
        match self {
            ReadError::NotJson => 1,
            ReadError::Form => 2,
            ReadError::Memory => 8,
        }
    }
}

impl From<TreeError> for ReadError {
    ghost from_gives = { λ e r. r ≡ refusal_of e };

    fn from(e: TreeError) -> ReadError {
        match e {
            TreeError::Form => ReadError::Form,
            TreeError::Memory => ReadError::Memory,
        }
    }
}

/// Why a tree wasn't read.
#[derive(Clone, Copy, PartialEq, Eq, Debug)]
pub(crate) enum TreeError {
    /// It has another form.
    Form,
    Memory,
}

impl From<AllocError> for TreeError {
    ghost from_gives = { λ _ e. e ≡ tree.Memory };

    fn from(_e: AllocError) -> TreeError {
        TreeError::Memory
    }
}

impl<T: Drop> From<AllocFailed<T>> for TreeError {
    ghost from_gives = { λ _ e. e ≡ tree.Memory };

    fn from(_e: AllocFailed<T>) -> TreeError {
        TreeError::Memory
    }
}
