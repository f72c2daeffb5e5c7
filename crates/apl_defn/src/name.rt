//! Texts that are a name.
ghost use Rattle.std.specs.Prelude.{◌≡◌, IfOk};
ghost use Rattle.apl_defn.specs.Reading.{name_of};

use crate::reading::name_in;
use apl_charset::Ch;
use apl_symbols::Name;
use apl_tokens::{TokenError, tokens};
use std::alloc::{AllocError, Global};

/// The name that a text is. A text of several tokens, or of none that is a name, is none, and
/// neither is one that can't be read.
pub fn name_of(alloc: Global, text: &[Ch]) -> Result<Option<Name>, AllocError>
    ensures { IfOk result (λ name. name ≡ name_of text.now) }
{
    match tokens(alloc, text) {
        Ok(tokens) => match tokens.as_slice() {
            [token] => Ok(name_in(&token.kind)),
            _ => Ok(None),
        },
        Err(TokenError::Memory) => Err(AllocError),
        Err(_) => Ok(None),
    }
}
