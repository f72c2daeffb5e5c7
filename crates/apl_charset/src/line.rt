// A line of bytes as characters.
ghost use Rattle.std.specs.Prelude.{◌≡◌, ◌≢◌, ℕ, ◌∷◌, [], IfOk, IfErr, IsErr, List, Some, None};
ghost use Rattle.apl_charset.specs.Decoding.{decoded};
ghost use Rattle.apl_charset.specs.Text.{bytes, IsLine, IsFault, IsOutside, fault_number};
ghost use Rattle.std.specs.Str.{IsValidUpTo};
ghost use Rattle.apl_charset.specs.declared.line.CharFault.{CharFault};
ghost use Rattle.apl_charset.specs.declared.line.CharFault.TheVariants.{Memory};

use crate::character::Ch;
use std::alloc::{AllocError, AllocFailed, Global};
use thiserror::Error;

/// Why a line of bytes is no text.
#[derive(Clone, Copy, PartialEq, Eq, Debug, Error)]
pub enum CharFault {
    /// After the first `at` bytes, which are a text, no character begins in UTF-8.
    #[error("no character begins after {at} bytes")]
    NotUtf8 { at: usize },
    /// After the first `at` bytes, which are a text, stands a character outside the set.
    #[error("the character after {at} bytes isn't in the set")]
    NotInSet { at: usize },
    #[error("out of memory")]
    Memory,
}

impl CharFault {
    /// Its number, from 1 to 3.
    pub fn number(self) -> u8
        ensures { result ≡ fault_number self }
    {
        match self {
            CharFault::NotUtf8 { .. } => 1,
            CharFault::NotInSet { .. } => 2,
            CharFault::Memory => 3,
        }
    }
}

impl From<AllocError> for CharFault {
    ghost from_gives = { λ _ e. e ≡ Memory };

    fn from(_e: AllocError) -> CharFault {
        CharFault::Memory
    }
}

impl<T: Drop> From<AllocFailed<T>> for CharFault {
    ghost from_gives = { λ _ e. e ≡ Memory };

    fn from(_e: AllocFailed<T>) -> CharFault {
        CharFault::Memory
    }
}

/// The characters of a text, up to the first that isn't in the set.
fn decode_text(alloc: Global, text: &str) -> Result<Vec<Ch>, CharFault>
    ensures ok { IfOk result (λ v. IsLine text.now v.items) }
    ensures fault { IfErr result (λ e. IsOutside text.now e) }
{
    // A character takes at least a byte.
    let mut out = Vec::with_capacity(alloc, text.len())?;
    let mut chars = text.chars();
    while let Some(c) = chars.next() {
        match Ch::new(c) {
            Some(x) => out.push(x)?,
            None => {
                return Err(CharFault::NotInSet {
                    at: text.len() - chars.as_str().len() - c.len_utf8(),
                });
            }
        }
    }
    Ok(out)
}

/// The fault of a line that is UTF-8 up to `at` and no further.
fn decode_prefix(alloc: Global, line: &[u8], at: usize) -> Result<Vec<Ch>, CharFault>
    requires { IsValidUpTo line.now at }
    ensures fails { IsErr result }
    ensures fault { IfErr result (λ e. IsFault line.now e) }
{
    match str::from_utf8(&line[..at]) {
        Ok(prefix) => match decode_text(alloc, prefix) {
            Ok(_) => return Err(CharFault::NotUtf8 { at }),
            Err(fault) => return Err(fault),
        },
        Err(_) => unreachable!(),
    }
}

/// The characters of a line, or its first fault from the left.
pub fn decode_line(alloc: Global, line: &[u8]) -> Result<Vec<Ch>, CharFault>
    // What is decoded is the line's one text.
    ensures found { IfOk result (λ v. IsLine line.now v.items) }
    ensures fault { IfErr result (λ e. IsFault line.now e) }
    // What is decoded is what the line decodes to.
    ensures decoded { IfOk result (λ v. decoded line.now ≡ Some v.items) }
    // A line with a fault decodes to nothing.
    ensures undecoded { IfErr result (λ e. e ≢ Memory → decoded line.now ≡ None) }
    // A line that is a text is decoded, unless memory runs out.
    ensures complete { (text : List ℕ) → IsLine line.now text → IfErr result (λ e. e ≡ Memory) }
{
    match str::from_utf8(line) {
        Ok(text) => decode_text(alloc, text),
        Err(fault) => decode_prefix(alloc, line, fault.valid_up_to()),
    }
}

/// The bytes of a text, in UTF-8.
pub fn encode(alloc: Global, text: &[Ch]) -> Result<Vec<u8>, AllocError>
    ensures { IfOk result (λ v. v.items ≡ bytes text.now) }
{
    let mut out = String::with_capacity(alloc, text.len() + 1)?;
    for c in text {
        out.push(c.code())?;
    }
    Ok(out.into_bytes())
}

/// The law that no line has two texts, or a text and a fault, or two faults.
pub fn one_answer()
    ensures text { (line a b : List ℕ) → IsLine line a → IsLine line b → a ≡ b }
    ensures either { (line a : List ℕ) (e : CharFault) → IsLine line a → IsFault line e → e ≡ Memory }
    ensures fault { (line : List ℕ) (d e : CharFault) → IsFault line d → IsFault line e → d ≢ Memory → e ≢ Memory → d ≡ e }
{}

/// The law that a line decodes to its one text, and to nothing where it has a fault.
pub fn one_decoding()
    ensures complete { (line text : List ℕ) → IsLine line text → decoded line ≡ Some text }
    ensures sound { (line text : List ℕ) → decoded line ≡ Some text → IsLine line text }
    ensures fault { (line : List ℕ) (e : CharFault) → IsFault line e → e ≢ Memory → decoded line ≡ None }
    // 2×4
    ensures row { decoded (50 ∷ 0xC3 ∷ 0x97 ∷ 52 ∷ []) ≡ Some (50 ∷ 0xD7 ∷ 52 ∷ []) }
{}
