//! Fields, and what they stand for.
ghost use Rattle.std.specs.Prelude.{◌≡◌, ◌↔◌, IsTrue, IfOk, IfErr, List, Option};
ghost use Rattle.std.specs.List.{AllByRecursion};
ghost use Rattle.apl_workspace_file.specs.Fitting.{FitsOption};
ghost use Rattle.apl_saved.specs.Spelled.{Pairwise, BothOrNeither};
ghost use Rattle.apl_loading.specs.Numbers.{Refuses};
ghost use Rattle.apl_loading.specs.declared.error.LoadFault.{LoadFault};

use crate::error::LoadFault;
use std::alloc::Global;

/// A field that stands for a part of a workspace.
pub(crate) trait Field {
    type Part: Drop;

    // Its arrays are within the limits.
    ghost small: { Self → Type 0 };

    ghost stands_for: { Self → Self.Part → Type 0 };

    // Why a field is refused that stands for nothing.
    ghost fault: { LoadFault };

    /// Whether its arrays are within the limits.
    fn is_small(&self) -> bool
        ensures { IsTrue result ↔ small self.now };

    /// What it stands for.
    fn read(&self, alloc: Global) -> Result<Self::Part, LoadFault>
        requires { small self.now }
        ensures found { IfOk result (λ p. stands_for self.now p) }
        ensures refused { IfErr result (Refuses fault (λ p. stands_for self.now p)) };
}

// A field that may be missing stands for a part that may be missing.
impl<T: Field> Field for Option<T> {
    type Part = Option<T::Part>;

    ghost small = { FitsOption T.small };

    ghost stands_for = { BothOrNeither T.stands_for };

    ghost fault = { T.fault };

    fn is_small(&self) -> bool {
        match self {
            None => true,
            Some(field) => field.is_small(),
        }
    }

    fn read(&self, alloc: Global) -> Result<Option<T::Part>, LoadFault> {
        match self {
            None => Ok(None),
            Some(field) => Ok(Some(field.read(alloc)?)),
        }
    }
}

/// Whether the arrays of each are within the limits.
pub(crate) fn are_small<T: Field>(fields: &[T]) -> bool
    ensures { IsTrue result ↔ AllByRecursion T.small fields.now }
{
    for field in fields {
        if !field.is_small() {
            return false;
        }
    }
    true
}

/// What they stand for, each for one part.
pub(crate) fn read_all<T: Field>(alloc: Global, fields: &[T]) -> Result<Vec<T::Part>, LoadFault>
    requires { AllByRecursion T.small fields.now }
    ensures found { IfOk result (λ v. Pairwise T.stands_for fields.now v.items) }
    ensures refused { IfErr result (Refuses T.fault (λ ps. Pairwise T.stands_for fields.now ps)) }
{
    let mut parts = Vec::with_capacity(alloc, fields.len())?;
    for field in fields {
        parts.push(field.read(alloc)?)?;
    }
    Ok(parts)
}
