//! Listings, read.
ghost use Rattle.std.specs.Prelude.{◌≡◌, ◌≤◌, ◌<◌, ◌+◌, ℕ, List, ◌∷◌, ◌++◌};
ghost use Rattle.std.specs.Prelude.{length, drop, IfOk, IfErr, IfSome, IfNone, MatchOption};
ghost use Rattle.apl_charset.specs.Text.{bytes, IsLine};
ghost use Rattle.apl_code.specs.Code.{is_end, IsCode};
ghost use Rattle.apl_code.specs.Instr.{IsInstr};
ghost use Rattle.apl_code.specs.declared.instr.Instr.{Instr};
ghost use Rattle.apl_listing.specs.Listing.{body, line, listed};
ghost use Rattle.apl_listing.specs.Assembly.{BeginsLine, HasNoEnd, IsFault};

use crate::error::AsmError;
use crate::reading::{instr_at, split};
use crate::well_made::is_instr;
use crate::writing::push_body;
use apl_charset::{Ch, CharFault, decode_line};
use apl_code::{Action, Code, Instr};
use std::alloc::{AllocError, Global};

/// The first line, and what follows it.
fn split_line(text: &[u8]) -> Option<(&[u8], &[u8])>
    ensures { MatchOption result (HasNoEnd text.now) (λ x. HasNoEnd x.0.now × (text.now ≡ x.0.now ++ 10 ∷ x.1.now)) }
{
    for i in 0..text.len() {
        if text[i] == b'\n' {
            return Some((&text[..i], &text[i + 1..]));
        }
    }
    None
}

/// The characters of a line, if it is a text.
fn decoded(alloc: Global, line: &[u8]) -> Result<Option<Vec<Ch>>, AllocError>
    ensures found { IfOk result (λ o. IfSome o (λ v. IsLine line.now v.items)) }
    ensures none { IfOk result (λ o. IfNone o ((text : List ℕ) → IsLine line.now text → ⊥)) }
{
    match decode_line(alloc, line) {
        Ok(text) => Ok(Some(text)),
        Err(CharFault::Memory) => Err(AllocError),
        Err(CharFault::NotUtf8 { at: _ }) => Ok(None),
        Err(CharFault::NotInSet { at: _ }) => Ok(None),
    }
}

/// The instruction of this number whose line, without its end, these characters are.
fn instr_of(alloc: Global, number: usize, text: &[Ch]) -> Result<Option<Instr>, AllocError>
    ensures found { IfOk result (λ o. IfSome o (λ i. IsInstr i × (text.now ≡ body number i))) }
    ensures none { IfOk result (λ o. IfNone o ((i : Instr) → IsInstr i → text.now ≡ body number i → ⊥)) }
{
    let (_, tail) = split(text, ' ');
    let Some(instr) = instr_at(alloc, tail)? else {
        return Ok(None);
    };
    if !is_instr(&instr) {
        return Ok(None);
    }
    let mut printed = Vec::new(alloc);
    push_body(&mut printed, number, &instr)?;
    if printed.as_slice() == text {
        Ok(Some(instr))
    } else {
        Ok(None)
    }
}

/// The instruction of this number whose line, without its end, these bytes are.
fn line_at(alloc: Global, number: usize, first: &[u8]) -> Result<Option<Instr>, AllocError>
    ensures found { IfOk result (λ o. IfSome o (λ i. IsInstr i × (first.now ≡ bytes (body number i)))) }
    ensures none { IfOk result (λ o. IfNone o ((i : Instr) → IsInstr i → first.now ≡ bytes (body number i) → ⊥)) }
{
    let Some(text) = decoded(alloc, first)? else {
        return Ok(None);
    };
    match instr_of(alloc, number, text.as_slice())? {
        Some(instr) => Ok(Some(instr)),
        None => Ok(None),
    }
}

/// The instruction of the first line, which has this number, and how long the line is.
fn next_line(
    alloc: Global,
    number: usize,
    text: &[u8],
) -> Result<Option<(Instr, usize)>, AllocError>
    ensures found { IfOk result (λ o. IfSome o (λ x. IsInstr x.0 × (x.1 ≤ length text.now) × (text.now ≡ line number x.0 ++ drop x.1 text.now))) }
    ensures none { IfOk result (λ o. IfNone o ((i : Instr) (rest : List ℕ) → IsInstr i → text.now ≡ line number i ++ rest → ⊥)) }
{
    let Some((first, _)) = split_line(text) else {
        return Ok(None);
    };
    match line_at(alloc, number, first)? {
        Some(instr) => Ok(Some((instr, first.len() + 1))),
        None => Ok(None),
    }
}

/// The same of the text from a place on.
fn next_from(
    alloc: Global,
    number: usize,
    text: &[u8],
    at: usize,
) -> Result<Option<(Instr, usize)>, AllocError>
    requires { at ≤ length text.now }
    ensures found { IfOk result (λ o. IfSome o (BeginsLine text.now number at)) }
    ensures none { IfOk result (λ o. IfNone o ((i : Instr) (rest : List ℕ) → IsInstr i → drop at text.now ≡ line number i ++ rest → ⊥)) }
{
    next_line(alloc, number, &text[at..])
}

fn is_end(action: Action) -> bool
    ensures { result ≡ is_end action }
{
    matches!(action, Action::End(_))
}

/// The code that a text lists, in UTF-8 as [`crate::listing`] writes it: `Form` where it lists none.
pub fn assemble(alloc: Global, text: &[u8]) -> Result<Code, AsmError>
    ensures found { IfOk result (λ c. listed 0 c ≡ text.now) }
    ensures fault { IfErr result (λ e. IsFault e text.now) }
{
    let mut code: Vec<Instr> = Vec::new(alloc);
    let mut at = 0;
    loop {
        match next_from(alloc, code.len(), text, at)? {
            None => return Err(AsmError::Form { line: code.len() }),
            Some((instr, len)) => {
                if is_end(instr.action) {
                    if at + len == text.len() {
                        code.push(instr)?;
                        return Ok(Code::new(code));
                    }
                    return Err(AsmError::Form {
                        line: code.len() + 1,
                    });
                }
                if code.len() == 999 {
                    return Err(AsmError::Form { line: code.len() });
                }
                code.push(instr)?;
                at += len;
            }
        }
    }
}

/// The law that different codes have different listings: so assembling the listing of a code gives
/// that code.
pub fn one_listing()
    ensures { (c d : List Instr) → IsCode c → IsCode d → listed 0 c ≡ listed 0 d → c ≡ d }
{}
