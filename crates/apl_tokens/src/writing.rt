// The plain spelling of tokens.
ghost use Rattle.std.specs.Prelude.{◌≡◌, ◌++◌, ◌≤◌, ◌==◌, ◌&&◌, length, replicate, decimal, IfOk, OnOk, List, ℕ, Ok};
ghost use Rattle.std.specs.List.{flat_map};
ghost use Rattle.apl_tokens.specs.Spelling.{signed, doubled};
ghost use Rattle.apl_tokens.specs.Lines.{Spells};
ghost use Rattle.apl_tokens.specs.Tokens.{tokens_of};
ghost use Rattle.apl_tokens.specs.Plain.{AreSpelled, number_word, more_numbers, numbers_word, plain_word, is_any_name, plain};

use crate::class::class_of;
use crate::token::{Kind, Token};
use apl_charset::{Ch, Text, push_ascii, push_number};
use std::alloc::{AllocError, Global};

fn push_blanks(text: &mut Vec<Ch>, count: usize) -> Result<(), AllocError>
    ensures { OnOk result (text.new.items ≡ text.old.items ++ replicate count 32) }
{
    for _ in 0..count {
        text.push(Ch::ascii(b' '))?;
    }
    Ok(())
}

/// Adds digits, with or without a high minus before them.
fn push_signed(text: &mut Vec<Ch>, negative: bool, n: u64) -> Result<(), AllocError>
    ensures { OnOk result (text.new.items ≡ text.old.items ++ signed negative (decimal n)) }
{
    if negative {
        text.push(Ch::member('¯'))?;
        push_number(text, n)?;
        return Ok(());
    }
    push_number(text, n)?;
    Ok(())
}

fn push_integer(text: &mut Vec<Ch>, after_name: bool, n: i64) -> Result<(), AllocError>
    ensures { OnOk result (text.new.items ≡ text.old.items ++ number_word after_name n) }
{
    if n < 0 {
        push_signed(text, true, n.unsigned_abs())?;
        return Ok(());
    }
    push_signed(text, after_name, n.unsigned_abs())?;
    Ok(())
}

/// Adds numbers, each behind a blank.
fn push_more(text: &mut Vec<Ch>, ns: &[i64]) -> Result<(), AllocError>
    ensures { OnOk result (text.new.items ≡ text.old.items ++ more_numbers ns.now) }
{
    for n in ns {
        text.push(Ch::ascii(b' '))?;
        push_integer(text, false, *n)?;
    }
    Ok(())
}

fn push_numbers(text: &mut Vec<Ch>, after_name: bool, ns: &[i64]) -> Result<(), AllocError>
    ensures { OnOk result (text.new.items ≡ text.old.items ++ numbers_word after_name ns.now) }
{
    let [first, more @ ..] = ns else {
        return Ok(());
    };
    push_integer(text, after_name, *first)?;
    push_more(text, more)?;
    Ok(())
}

/// Adds characters, each quote twice.
fn push_doubled(text: &mut Vec<Ch>, quoted: &[Ch]) -> Result<(), AllocError>
    ensures { OnOk result (text.new.items ≡ text.old.items ++ flat_map doubled quoted.now) }
{
    for c in quoted {
        if class_of(*c).is_quote() {
            push_ascii(text, b"''")?;
            continue;
        }
        text.push(*c)?;
    }
    Ok(())
}

/// Adds the word of a token that stands directly behind a name or not.
fn push_word(text: &mut Vec<Ch>, after_name: bool, kind: &Kind) -> Result<(), AllocError>
    ensures { OnOk result (text.new.items ≡ text.old.items ++ plain_word after_name kind.now) }
{
    match kind {
        Kind::Constant(numbers) => push_numbers(text, after_name, numbers.as_slice())?,
        Kind::Text(quoted) => {
            text.push(Ch::ascii(b'\''))?;
            push_doubled(text, quoted.as_slice())?;
            text.push(Ch::ascii(b'\''))?;
        }
        Kind::Name(name) => text.extend_from_slice(name.as_slice())?,
        Kind::System(name) => {
            text.push(Ch::member('⎕'))?;
            push_ascii(text, name.letters())?;
        }
        Kind::Comment(note) => {
            text.push(Ch::member('⍝'))?;
            text.extend_from_slice(note.as_slice())?;
        }
        Kind::Symbol(symbol) => text.push(symbol.glyph())?,
    }
    Ok(())
}

/// Whether a token is a name or a system name.
fn is_any_name(kind: &Kind) -> bool
    ensures { result ≡ is_any_name kind.now }
{
    matches!(kind, Kind::Name(_) | Kind::System(_))
}

/// Whether a name ends directly before a token that stands behind such a gap.
fn is_after_name(named: bool, gap: usize) -> bool
    ensures { result ≡ (named && (gap == 0)) }
{
    named && gap == 0
}

/// The plain text of the tokens.
fn written(alloc: Global, tokens: &[Token]) -> Result<Text, AllocError>
    ensures { IfOk result (λ text. text ≡ plain tokens.now) }
{
    let mut text = Vec::new(alloc);
    let mut named = false;
    for token in tokens {
        let gap = token.at.saturating_sub(1).saturating_sub(text.len());
        push_blanks(&mut text, gap)?;
        push_word(&mut text, is_after_name(named, gap), &token.kind)?;
        named = is_any_name(&token.kind);
    }
    Ok(Text::new(text))
}

/// A text of these tokens: each at its column, blanks alone between. Numbers have no needless
/// zeros and one blank between; 0 directly behind a name is written `¯0`. The only error is that
/// memory has run out.
pub fn spell(alloc: Global, tokens: &[Token]) -> Result<Text, AllocError>
    requires { AreSpelled tokens.now }
    // The tokens spell it.
    ensures spelled { IfOk result (λ text. Spells tokens.now text) }
    // So it is read as these tokens.
    ensures reads { IfOk result (λ text. tokens_of text ≡ Ok tokens.now) }
    // No text of these tokens is shorter.
    ensures shortest { IfOk result (λ text. (other : List ℕ) → Spells tokens.now other → length text ≤ length other) }
    // It is the plain one.
    ensures is_plain { IfOk result (λ text. text ≡ plain tokens.now) }
{
    let text = written(alloc, tokens)?;
    Ok(text)
}
