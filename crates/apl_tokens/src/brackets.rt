// Brackets and their partners.
ghost use Rattle.std.specs.Prelude.{◌≡◌, [], IfOk};
ghost use Rattle.apl_tokens.specs.Brackets.{kind_side, side_of, same_bracket, unmatched};

use crate::token::{Kind, Token};
use apl_symbols::Symbol;
use std::alloc::{AllocError, Global};

/// A pair of brackets.
#[derive(Clone, Copy, Debug)]
pub enum Bracket {
    /// `(` and `)`
    Round,
    /// `[` and `]`
    Square,
}

impl Bracket {
    pub fn is(self, other: Bracket) -> bool
        ensures { result ≡ same_bracket self other }
    {
        match self {
            Bracket::Round => matches!(other, Bracket::Round),
            Bracket::Square => matches!(other, Bracket::Square),
        }
    }
}

/// What a token does to the brackets that are open.
#[derive(Clone, Copy, Debug)]
pub enum Side {
    Opens(Bracket),
    Closes(Bracket),
    Neither,
}

pub fn side_of(symbol: Symbol) -> Side
    ensures { result ≡ side_of symbol }
{
    match symbol {
        Symbol::OpenParenthesis => Side::Opens(Bracket::Round),
        Symbol::OpenBracket => Side::Opens(Bracket::Square),
        Symbol::CloseParenthesis => Side::Closes(Bracket::Round),
        Symbol::CloseBracket => Side::Closes(Bracket::Square),
        _ => Side::Neither,
    }
}

fn kind_side(kind: &Kind) -> Side
    ensures { result ≡ kind_side kind.now }
{
    match kind {
        Kind::Symbol(symbol) => side_of(*symbol),
        _ => Side::Neither,
    }
}

/// The column of the bracket without a partner.
pub fn unmatched(alloc: Global, tokens: &[Token]) -> Result<Option<usize>, AllocError>
    ensures { IfOk result (λ o. o ≡ unmatched [] tokens.now) }
{
    let mut awaited: Vec<(Bracket, usize)> = Vec::new(alloc);
    for token in tokens {
        match kind_side(&token.kind) {
            Side::Neither => continue,
            Side::Opens(bracket) => {
                awaited.push((bracket, token.at))?;
                continue;
            }
            Side::Closes(bracket) => match awaited.pop() {
                None => return Ok(Some(token.at)),
                Some((innermost, _)) => {
                    if !bracket.is(innermost) {
                        return Ok(Some(token.at));
                    }
                    continue;
                }
            },
        }
    }
    match awaited.pop() {
        None => return Ok(None),
        Some((_, column)) => return Ok(Some(column)),
    }
}
