// The tokens of a line.
ghost use Rattle.std.specs.Prelude.{◌≡◌, ◌≢◌, ℕ, List, All, ◌<◌, ◌≤◌, length, true, IfOk, IfErr, IfSome, OnOk, MatchOption, ◌∷◌, [], Ok, Err, replicate, ◌++◌};
ghost use Rattle.apl_tokens.specs.Spelling.{all_blank, Step, Row};
ghost use Rattle.apl_tokens.specs.Lines.{error_at, error_number, IsSmall, IsBreak, Joins, Breaks, Spells, IsFault, Ascend, Fits};
ghost use Rattle.apl_tokens.specs.Joined.{push_joined};
ghost use Rattle.apl_tokens.specs.declared.token.Kind.TheVariants.{Constant};
ghost use Rattle.apl_tokens.specs.Tokens.{tokens_of, Reads, AreTokens, IsPlaced};
ghost use Rattle.apl_tokens.specs.Worked.{sum_and_product, vector_and_number};
ghost use Rattle.apl_tokens.specs.Faults.{faults_of, Leads};
ghost use Rattle.apl_tokens.specs.declared.reading.Fault.TheVariants as Fault;
ghost use Rattle.apl_tokens.specs.declared.token.Token.{Token};
ghost use Rattle.apl_tokens.specs.declared.line.TokenError.{TokenError};
ghost use Rattle.apl_tokens.specs.declared.line.TokenError.TheVariants.{Memory};

use crate::brackets::unmatched;
use crate::place::Place;
use crate::reading::{Fault, Halt, Run, next_at};
use crate::token::{Kind, Numbers, Token};
use apl_charset::Ch;
use std::alloc::{AllocError, AllocFailed, Global};
use thiserror::Error;

/// Why a line has no tokens. Columns count from 1.
#[derive(Clone, Copy, PartialEq, Eq, Debug, Error)]
pub enum TokenError {
    /// The quote at that column isn't closed.
    #[error("the text at column {column} isn't closed")]
    Quote { column: usize },
    /// The bracket at that column has no partner.
    #[error("the bracket at column {column} has no partner")]
    Unbalanced { column: usize },
    /// The character at that column can't stand there.
    #[error("column {column} begins no token")]
    Stray { column: usize },
    /// The number at that column is out of range, or the name longer than 32 characters.
    #[error("the number or name at column {column} is over a limit")]
    Limit { column: usize },
    /// The line has more than 500 characters; the column is 501.
    #[error("the line goes past column {column}")]
    TooLong { column: usize },
    #[error("out of memory")]
    Memory,
}

impl TokenError {
    /// Its number, from 1 to 6.
    pub fn number(self) -> u8
        ensures { result ≡ error_number self }
    {
        match self {
            TokenError::Quote { .. } => 1,
            TokenError::Unbalanced { .. } => 2,
            TokenError::Stray { .. } => 3,
            TokenError::Limit { .. } => 4,
            TokenError::TooLong { .. } => 5,
            TokenError::Memory => 6,
        }
    }
}

impl From<AllocError> for TokenError {
    ghost from_gives = { λ _ e. e ≡ Memory };

    fn from(_e: AllocError) -> TokenError {
        TokenError::Memory
    }
}

impl<T: Drop> From<AllocFailed<T>> for TokenError {
    ghost from_gives = { λ _ e. e ≡ Memory };

    fn from(_e: AllocFailed<T>) -> TokenError {
        TokenError::Memory
    }
}

fn error_at(halt: Halt, column: usize) -> TokenError
    requires { IsSmall halt column }
    ensures { result ≡ error_at halt column }
{
    match halt {
        Halt::Memory => TokenError::Memory,
        Halt::Broken(fault, after) => {
            let column = column + after;
            match fault {
                Fault::Quote => TokenError::Quote { column },
                Fault::Stray => TokenError::Stray { column },
                Fault::Limit => TokenError::Limit { column },
            }
        }
    }
}

/// The token after the leading blanks, if one is there, and what is after it.
fn piece(
    alloc: Global,
    end: usize,
    place: Place,
    text: &[Ch],
) -> Result<Option<(Token, &[Ch])>, TokenError>
    requires { (length text.now < end) × (end ≤ 501) }
    ensures found { IfOk result (λ o. MatchOption o (all_blank text.now ≡ true) (λ x. Step end place x.0 text.now x.1.now)) }
    ensures shorter { IfOk result (λ o. IfSome o (λ x. length x.1.now < length text.now)) }
    ensures fault { IfErr result (λ e. IsBreak end place text.now e) }
{
    let (_, word) = text.split_at(Run::Blanks.len(text));
    if word.is_empty() {
        return Ok(None);
    }
    let column = end - word.len();
    match next_at(alloc, place, word) {
        Err(halt) => return Err(error_at(halt, column)),
        Ok((kind, len)) => {
            let (_, after) = word.split_at(len);
            return Ok(Some((Token { kind, at: column }, after)));
        }
    }
}

/// The tokens of a text whose brackets may lack partners.
fn spelled(alloc: Global, text: &[Ch]) -> Result<Vec<Token>, TokenError>
    requires { length text.now ≤ 500 }
    ensures found { IfOk result (λ v. Joins text.now v.items) }
    ensures fault { IfErr result (λ e. Breaks text.now e) }
{
    // A token takes at least a character; the room that is left over is given back.
    let mut out = Vec::with_capacity(alloc, text.len())?;
    let mut place = Place::Start;
    let mut rest = text;
    while let Some((token, after)) = piece(alloc, text.len() + 1, place, rest)? {
        place = place.next(&token.kind);
        push_joined(&mut out, token)?;
        rest = after;
    }
    out.shrink_to_fit();
    Ok(out)
}

/// Adds a token at the end, or its numbers to the constant there.
fn push_joined(out: &mut Vec<Token>, token: Token) -> Result<(), AllocError>
    ensures { OnOk result (out.new.items ≡ push_joined out.old.items token) }
{
    let Token { kind, at } = token;
    match kind {
        Kind::Constant(more) => push_numbers(out, more, at),
        kind => {
            out.push(Token { kind, at })?;
            Ok(())
        }
    }
}

/// Adds numbers to the constant at the end, or as a constant of their own.
fn push_numbers(out: &mut Vec<Token>, more: Numbers, at: usize) -> Result<(), AllocError>
    ensures { OnOk result (out.new.items ≡ push_joined out.old.items (record { kind = Constant more; at = at })) }
{
    let Some(last) = out.pop() else {
        out.push(Token {
            kind: Kind::Constant(more),
            at,
        })?;
        return Ok(());
    };
    let Token { kind, at: place } = last;
    match kind {
        Kind::Constant(prefix) => {
            let numbers = prefix.followed_by(more)?;
            out.push(Token {
                kind: Kind::Constant(numbers),
                at: place,
            })?;
            return Ok(());
        }
        kind => {
            out.push(Token { kind, at: place })?;
            out.push(Token {
                kind: Kind::Constant(more),
                at,
            })?;
            return Ok(());
        }
    }
}

/// The tokens of a text, or its fault.
fn read(alloc: Global, text: &[Ch]) -> Result<Vec<Token>, TokenError>
    ensures found { IfOk result (λ v. Spells v.items text.now) }
    ensures fault { IfErr result (λ e. IsFault text.now e) }
{
    if text.len() > 500 {
        return Err(TokenError::TooLong { column: 501 });
    }
    let tokens = spelled(alloc, text)?;
    match unmatched(alloc, tokens.as_slice())? {
        Some(column) => return Err(TokenError::Unbalanced { column }),
        None => return Ok(tokens),
    }
}

/// The tokens of a line, or its fault: first that it is too long, then the leftmost of what can't be
/// read, then a bracket without a partner.
pub fn tokens(alloc: Global, text: &[Ch]) -> Result<Vec<Token>, TokenError>
    // What is read spells the text.
    ensures found { IfOk result (λ v. Spells v.items text.now) }
    // A text that no tokens spell has this fault.
    ensures fault { IfErr result (λ e. IsFault text.now e) }
    // A text that tokens spell is read, unless memory runs out.
    ensures complete { (ts : List Token) → Spells ts text.now → IfErr result (λ e. e ≡ Memory) }
    // The columns ascend from 1 to at most 500.
    ensures columns { IfOk result (λ v. Ascend 0 v.items) }
    ensures few { IfOk result (λ v. length v.items ≤ 500) }
    // Each number of a constant fits 64 bits.
    ensures fits { IfOk result (λ v. All (λ t. Fits t.kind) v.items) }
    // It is the one answer for the text.
    ensures reads { Reads result (tokens_of text.now) }
    // The tokens are few, ascend within the line, and have numbers that fit.
    ensures sound { IfOk result (λ v. AreTokens v.items) }
    // The column of a fault is one of the line, or the one after its longest.
    ensures placed { IfErr result (λ e. IsPlaced e) }
    // It is the leftmost of all faults of the text, of two at one column the stray character.
    ensures leftmost { IfErr result (λ e. Leads e text.now) }
    // A text that is read has none.
    ensures faultless { IfOk result (λ v. faults_of text.now ≡ []) }
{
    read(alloc, text)
}

/// The law that a text has at most one list of tokens, at most one fault, and never both.
pub fn one_answer()
    ensures tokens { (text : List ℕ) (ts us : List Token) → Spells ts text → Spells us text → ts ≡ us }
    ensures either { (text : List ℕ) (ts : List Token) (e : TokenError) → Spells ts text → IsFault text e → e ≡ Memory }
    ensures fault { (text : List ℕ) (d e : TokenError) → IsFault text d → IsFault text e → d ≢ Memory → e ≢ Memory → d ≡ e }
{}

/// The law that a text's tokens, or its fault, are the one answer for it.
pub fn one_reading()
    ensures spelled { (text : List ℕ) (ts : List Token) → Spells ts text → tokens_of text ≡ Ok ts }
    ensures spells { (text : List ℕ) (ts : List Token) → tokens_of text ≡ Ok ts → Spells ts text }
    ensures fault { (text : List ℕ) (e : TokenError) → IsFault text e → e ≢ Memory → tokens_of text ≡ Err e }
    ensures faulty { (text : List ℕ) (e : TokenError) → tokens_of text ≡ Err e → IsFault text e × (e ≢ Memory) }
    ensures sound { (text : List ℕ) (ts : List Token) → tokens_of text ≡ Ok ts → AreTokens ts }
    ensures placed { (text : List ℕ) (e : TokenError) → tokens_of text ≡ Err e → IsPlaced e }
    ensures leftmost { (text : List ℕ) (e : TokenError) → tokens_of text ≡ Err e → Leads e text }
    ensures faultless { (text : List ℕ) (ts : List Token) → tokens_of text ≡ Ok ts → faults_of text ≡ [] }
{}

/// The law that the answer computes, at four texts.
pub fn worked_readings()
    // 2+3×4
    ensures numbers { tokens_of (50 ∷ 43 ∷ 51 ∷ 0xD7 ∷ 52 ∷ []) ≡ Ok sum_and_product }
    // 1 2+3
    ensures constant { tokens_of (49 ∷ 32 ∷ 50 ∷ 43 ∷ 51 ∷ []) ≡ Ok vector_and_number }
    // (2+3
    ensures bracket { tokens_of (40 ∷ 50 ∷ 43 ∷ 51 ∷ []) ≡ Err (TokenError.Unbalanced 1) }
    // 1 3A
    ensures stray { tokens_of (49 ∷ 32 ∷ 51 ∷ 65 ∷ []) ≡ Err (TokenError.Stray 4) }
{}

/// The law that a text is read on past each fault, at four texts.
pub fn worked_faults()
    // 5 and a name of 33 letters directly behind it
    ensures one_column { faults_of (53 ∷ replicate 33 65) ≡ (Fault.Stray, 2) ∷ (Fault.Limit, 2) ∷ [] }
    // 99999999999999999999A
    ensures behind_limit { faults_of (replicate 20 57 ++ 65 ∷ []) ≡ (Fault.Limit, 1) ∷ (Fault.Stray, 21) ∷ [] }
    // ∇ 2¯ 'A
    ensures apart { faults_of (0x2207 ∷ 32 ∷ 50 ∷ 0xAF ∷ 32 ∷ 39 ∷ 65 ∷ []) ≡ (Fault.Stray, 1) ∷ (Fault.Stray, 4) ∷ (Fault.Stray, 4) ∷ (Fault.Quote, 6) ∷ [] }
    // (A
    ensures brackets { faults_of (40 ∷ 65 ∷ []) ≡ [] }
{}
