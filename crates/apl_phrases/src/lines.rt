//! Output lines.
ghost use Rattle.std.specs.Prelude.{◌≡◌, IfOk};
ghost use Rattle.apl_machine_state.specs.Reports.{lines_of};

use apl_charset::Text;
use apl_machine_state::{LineKind, OutLine};
use std::alloc::{AllocError, Global};

/// Output lines of these texts, all of this kind.
pub fn said(alloc: Global, kind: LineKind, texts: Vec<Text>) -> Result<Vec<OutLine>, AllocError>
    ensures { IfOk result (λ lines. lines.items ≡ lines_of kind texts.items) }
{
    let mut lines = Vec::with_capacity(alloc, texts.len())?;
    for text in texts {
        lines.push(OutLine { text, kind })?;
    }
    Ok(lines)
}
