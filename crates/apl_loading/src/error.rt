//! Why a file holds no workspace.
ghost use Rattle.std.specs.Prelude.{◌≡◌};
ghost use Rattle.apl_loading.specs.Numbers.{fault_number};
ghost use Rattle.apl_loading.specs.declared.error.LoadFault.TheVariants as fault;

use std::alloc::{AllocError, AllocFailed};
use thiserror::Error;

/// Why a workspace file is refused.
#[derive(Clone, Copy, PartialEq, Eq, Debug, Error)]
pub enum LoadFault {
    /// The elements of an array don't fit its shape, or leave the character set.
    #[error("an array doesn't fit its shape or the character set")]
    Array,
    /// A definition is none, its header isn't canonical, its vectors aren't ascending lines of it, or
    /// functions or variables are out of order or of one name.
    #[error("a definition is none, or a name is out of order")]
    Definition,
    /// A context breaks a rule of contexts.
    #[error("a context doesn't fit its line or what stands below it")]
    Context,
    /// The listing of a line isn't that of its text.
    #[error("the code of a line isn't its listing")]
    Code,
    /// An array is over the limits, or more than 256 calls and executes stand.
    #[error("an array or the number of contexts is over the limits")]
    Limit,
    #[error("out of memory")]
    Memory,
}

impl LoadFault {
    /// Its number: 3 to 8.
    pub fn number(self) -> u8
        ensures { result ≡ fault_number self }
    {
        match self {
            LoadFault::Array => 3,
            LoadFault::Definition => 4,
            LoadFault::Context => 5,
            LoadFault::Code => 6,
            LoadFault::Limit => 7,
            LoadFault::Memory => 8,
        }
    }
}

impl From<AllocError> for LoadFault {
    ghost from_gives = { λ _ e. e ≡ fault.Memory };

    fn from(_e: AllocError) -> LoadFault {
        LoadFault::Memory
    }
}

impl<T: Drop> From<AllocFailed<T>> for LoadFault {
    ghost from_gives = { λ _ e. e ≡ fault.Memory };

    fn from(_e: AllocFailed<T>) -> LoadFault {
        LoadFault::Memory
    }
}
