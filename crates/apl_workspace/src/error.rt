//! Why a workspace isn't saved, or bytes aren't loaded.
ghost use Rattle.std.specs.Prelude.{◌≡◌};
ghost use Rattle.apl_workspace.specs.Numbers.{load_number, save_number};

use apl_loading::LoadFault;
use apl_workspace_file::ReadError;
use std::alloc::AllocError;
use thiserror::Error;

/// Why a workspace isn't saved.
#[derive(Clone, Copy, Debug, PartialEq, Eq, Error)]
pub enum SaveError {
    /// The machine runs: only an idle one is saved.
    #[error("the machine runs")]
    Running = 1,
    #[error("out of memory")]
    Memory,
}

impl SaveError {
    /// Its number, 1 or 2.
    pub fn number(self) -> u8
        ensures { result ≡ save_number self }
    {
        self as u8
    }
}

impl From<AllocError> for SaveError {
    ghost use Rattle.std.specs.Prelude.{◌≡◌};
    ghost use Rattle.apl_workspace.specs.declared.error.SaveError.TheVariants.{Memory};

    ghost from_gives = { λ _ e. e ≡ Memory };

    fn from(_error: AllocError) -> SaveError {
        SaveError::Memory
    }
}

/// Why bytes aren't loaded as a workspace.
#[derive(Clone, Copy, Debug, PartialEq, Eq, Error)]
pub enum LoadError {
    /// They are no JSON.
    #[error("the file isn't JSON")]
    NotJson = 1,
    /// They are JSON, but of another form.
    #[error("the file hasn't the form of a workspace")]
    Form,
    /// The elements of an array don't fit its shape, or aren't characters of the language.
    #[error("an array doesn't fit its shape, or holds a character that isn't one")]
    Array,
    /// A function isn't one that could be defined, or functions and variables don't stand as they are
    /// to: in order, with names, none in both lists.
    #[error("a function or a variable isn't one, or stands in the wrong place")]
    Definition,
    /// A half-done statement, call or text is against the rules.
    #[error("a context doesn't fit")]
    Context,
    /// The code of a half-done line isn't that of its text.
    #[error("the code of a line isn't its own")]
    Code,
    /// An array is over the limits, or more than 256 calls and executes stand.
    #[error("an array is too large, or too many calls stand")]
    Limit,
    #[error("out of memory")]
    Memory,
}

impl LoadError {
    /// Its number, from 1 to 8.
    pub fn number(self) -> u8
        ensures { result ≡ load_number self }
    {
        self as u8
    }
}

impl From<AllocError> for LoadError {
    ghost use Rattle.std.specs.Prelude.{◌≡◌};
    ghost use Rattle.apl_workspace.specs.declared.error.LoadError.TheVariants.{Memory};

    ghost from_gives = { λ _ e. e ≡ Memory };

    fn from(_error: AllocError) -> LoadError {
        LoadError::Memory
    }
}

impl From<ReadError> for LoadError {
    ghost use Rattle.std.specs.Prelude.{◌≡◌};
    ghost use Rattle.apl_workspace.specs.Refusals.{error_of_read};

    ghost from_gives = { λ e r. r ≡ error_of_read e };

    fn from(error: ReadError) -> LoadError {
        match error {
            ReadError::NotJson => LoadError::NotJson,
            ReadError::Form => LoadError::Form,
            ReadError::Memory => LoadError::Memory,
        }
    }
}

impl From<LoadFault> for LoadError {
    ghost use Rattle.std.specs.Prelude.{◌≡◌};
    ghost use Rattle.apl_workspace.specs.Refusals.{error_of_fault};

    ghost from_gives = { λ e r. r ≡ error_of_fault e };

    fn from(fault: LoadFault) -> LoadError {
        match fault {
            LoadFault::Array => LoadError::Array,
            LoadFault::Definition => LoadError::Definition,
            LoadFault::Context => LoadError::Context,
            LoadFault::Code => LoadError::Code,
            LoadFault::Limit => LoadError::Limit,
            LoadFault::Memory => LoadError::Memory,
        }
    }
}
