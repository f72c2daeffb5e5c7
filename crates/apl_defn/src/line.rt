// The tokens of a line.
ghost use Rattle.std.specs.Prelude.{◌≡◌, Ok, false, is_ok, IfOk, IfSome, IfNone};
ghost use Rattle.apl_tokens.specs.Tokens.{tokens_of};

use apl_charset::Ch;
use apl_tokens::{Token, TokenError, tokens};
use std::alloc::{AllocError, Global};

/// The tokens of a text, where it has no fault.
pub(crate) fn tokens_in(alloc: Global, text: &[Ch]) -> Result<Option<Vec<Token>>, AllocError>
    ensures found { IfOk result (λ o. IfSome o (λ tokens. tokens_of text.now ≡ Ok tokens.items)) }
    ensures faulty { IfOk result (λ o. IfNone o (is_ok (tokens_of text.now) ≡ false)) }
{
    match tokens(alloc, text) {
        Ok(tokens) => return Ok(Some(tokens)),
        Err(TokenError::Memory) => return Err(AllocError),
        Err(_) => return Ok(None),
    }
}
