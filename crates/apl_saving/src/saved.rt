//! What a file holds by a field of its own, and lists of it.
ghost use Rattle.std.specs.Prelude.{IfOk};
ghost use Rattle.apl_saved.specs.Spelled.{Pairwise, BothOrNeither};

use apl_workspace_file::ListField;
use std::alloc::{AllocError, Global};

/// What a file holds by a field of its own.
pub(crate) trait Saved {
    type Field: Drop;

    /// What the field stands for.
    ghost is_field: { Self.Field → Self → Type 0 };

    /// Its field. The error is that memory has run out.
    fn field(&self, alloc: Global) -> Result<Self::Field, AllocError>
        ensures { IfOk result (λ f. is_field f self.now) };
}

// What is missing has no field.
impl<T: Saved> Saved for Option<T> {
    type Field = Option<T::Field>;

    ghost is_field = { BothOrNeither T.is_field };

    fn field(&self, alloc: Global) -> Result<Option<T::Field>, AllocError> {
        match self {
            None => Ok(None),
            Some(item) => Ok(Some(item.field(alloc)?)),
        }
    }
}

/// The fields of a list, in its order.
pub(crate) fn list_field<T: Saved>(
    alloc: Global,
    items: &[T],
) -> Result<ListField<T::Field>, AllocError>
    ensures { IfOk result (λ l. Pairwise T.is_field l items.now) }
{
    let mut fields = Vec::with_capacity(alloc, items.len())?;
    for item in items {
        fields.push(item.field(alloc)?)?;
    }
    Ok(ListField::new(fields))
}
