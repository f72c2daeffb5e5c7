//! Texts.
ghost use Rattle.std.specs.Prelude.{IfOk};
ghost use Rattle.apl_charset.specs.Text.{IsLine};

use apl_charset::Ch;
use apl_workspace_file::TextField;
use std::alloc::{AllocError, Global};

/// A text in UTF-8.
pub(crate) fn text_field(alloc: Global, text: &[Ch]) -> Result<TextField, AllocError>
    ensures { IfOk result (λ f. IsLine f text.now) }
{
    let mut written = String::new(alloc);
    for c in text {
        written.push(c.code())?;
    }
    Ok(TextField::new(written))
}
