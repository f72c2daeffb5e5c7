//! The file.
ghost use Rattle.std.specs.Prelude.{◌≡◌, IfOk};
ghost use Rattle.apl_workspace_file.specs.declared.fields.Version.TheVariants.{Two};
ghost use Rattle.apl_saved.specs.Spelled.{IsFileOf, IsVariableOf};
ghost use Rattle.apl_saving.specs.Readable.{AreReadable};

use crate::contexts::contexts_field;
use crate::saved::{Saved, list_field};
use crate::texts::text_field;
use apl_arrays::Array;
use apl_parts::Parts;
use apl_symbols::Name;
use apl_workspace_file::{File, VariableField, Version};
use std::alloc::{AllocError, Global};

// A global variable.
impl Saved for (Name, Array) {
    type Field = VariableField;

    ghost is_field = { IsVariableOf };

    fn field(&self, alloc: Global) -> Result<VariableField, AllocError> {
        let (name, value) = self;
        let name = text_field(alloc, name.as_slice())?;
        let value = value.field(alloc)?;
        Ok(VariableField { name, value })
    }
}

/// The workspace file, of version 2, of parts whose lines have tokens, as those of a machine
/// ([`crate::kept_parts_are_readable`]). The error is that memory has run out.
pub fn file_of(alloc: Global, parts: &Parts) -> Result<File, AllocError>
    requires { AreReadable parts.now }
    ensures holds { IfOk result (λ f. IsFileOf f parts.now) }
    ensures version { IfOk result (λ f. f.version ≡ Two) }
{
    let functions = list_field(alloc, parts.functions())?;
    let variables = list_field(alloc, parts.variables())?;
    let contexts = contexts_field(alloc, parts.contexts())?;
    Ok(File {
        version: Version::Two,
        functions,
        variables,
        origin: parts.origin().number(),
        contexts,
    })
}
