//! How a kind of value is read from a tree, and its tree written.
ghost use Rattle.std.specs.Prelude.{◌≡◌, IfOk, Result};
ghost use Rattle.serde_json.specs.Data.{Data};
ghost use Rattle.serde_json.specs.View.{view};
ghost use Rattle.apl_workspace_file.specs.Reading.{Gives};
ghost use Rattle.apl_workspace_file.specs.declared.error.TreeError.{TreeError};

use crate::error::TreeError;
use serde_json::Value;
use std::alloc::{AllocError, Global};

/// A kind of value that stands in a file.
pub(crate) trait Field: Drop {
    ghost reading: { Data → Result Self TreeError };

    ghost tree: { Self → Data };

    /// The value of this tree. Its texts are moved, not copied.
    fn read(alloc: Global, value: Value) -> Result<Self, TreeError>
        ensures { Gives result (reading (view value)) };

    /// Its tree.
    fn write(&self, alloc: Global) -> Result<Value, AllocError>
        ensures { IfOk result (λ v. view v ≡ tree self.now) };
}
