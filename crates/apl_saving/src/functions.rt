//! Functions.
ghost use Rattle.std.specs.Prelude.{◌≡◌, ◌<◌, length, slice_get, IfOk, Some};
ghost use Rattle.apl_charset.specs.Text.{IsLine};
ghost use Rattle.apl_saved.specs.Spelled.{IsDefinitionOf, IsFunctionOf, Pairwise};

use crate::saved::Saved;
use crate::texts::text_field;
use apl_charset::Ch;
use apl_defn::{Definition, canonical};
use apl_parts::FunctionPart;
use apl_workspace_file::{FunctionField, ListField, TextField};
use std::alloc::{AllocError, Global};

/// How a file holds a definition.
#[derive(Drop)]
pub(crate) struct DefinitionField {
    pub(crate) header: TextField,
    pub(crate) lines: ListField<TextField>,
}

/// The line behind n others.
fn line_behind(definition: &Definition, n: usize) -> &[Ch]
    requires { n < length definition.now.lines }
    ensures { slice_get definition.now.lines n ≡ Some result.now }
{
    // A definition has at most 999 lines, so the number fits.
    let _len = definition.len();
    let Some(line) = definition.line(n + 1) else {
        unreachable!()
    };
    line
}

/// The lines of a definition.
fn lines_field(alloc: Global, definition: &Definition) -> Result<ListField<TextField>, AllocError>
    ensures { IfOk result (λ l. Pairwise IsLine l definition.now.lines) }
{
    let mut lines = Vec::with_capacity(alloc, definition.len())?;
    for n in 0..definition.len() {
        lines.push(text_field(alloc, line_behind(definition, n))?)?;
    }
    Ok(ListField::new(lines))
}

/// The header of a definition, as it is written canonically, and its lines.
pub(crate) fn definition_field(
    alloc: Global,
    definition: &Definition,
) -> Result<DefinitionField, AllocError>
    ensures { IfOk result (λ f. IsDefinitionOf f.header f.lines definition.now) }
{
    let text = canonical(alloc, definition.header())?;
    let header = text_field(alloc, text.as_slice())?;
    let lines = lines_field(alloc, definition)?;
    Ok(DefinitionField { header, lines })
}

impl Saved for FunctionPart {
    type Field = FunctionField;

    ghost is_field = { IsFunctionOf };

    fn field(&self, alloc: Global) -> Result<FunctionField, AllocError> {
        let DefinitionField { header, lines } = definition_field(
            alloc,
            self.function().definition(),
        )?;
        let stop = Vec::from_slice(alloc, self.stops())?;
        let trace = Vec::from_slice(alloc, self.traces())?;
        Ok(FunctionField {
            header,
            lines,
            stop: ListField::new(stop),
            trace: ListField::new(trace),
        })
    }
}
