//! Texts that are typed or executed.
ghost use Rattle.std.specs.Prelude.{◌≡◌};
ghost use Rattle.apl_machine_state.specs.Texts.{colon_of};

use apl_symbols::Symbol;
use apl_tokens::{Kind, Token};

/// The column of the colon of a label, where these tokens begin with one.
pub fn colon_of(tokens: &[Token]) -> Option<usize>
    ensures { result ≡ colon_of tokens.now }
{
    match tokens {
        [first, second, ..] => match first.kind {
            Kind::Name(_) => match second.kind {
                Kind::Symbol(Symbol::Colon) => Some(second.at),
                _ => None,
            },
            _ => None,
        },
        _ => None,
    }
}
