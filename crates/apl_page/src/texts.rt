//! The texts that a call gives of a session.
ghost use Rattle.std.specs.Prelude.{◌≡◌, ◌++◌, ◌∷◌, decimal, map, OnOk, IfOk, MatchResult, Some, Ok, Err};
ghost use Rattle.std.specs.List.{flat_map};
ghost use Rattle.apl_session.specs.Commands.{shown_level};
ghost use Rattle.apl_page.specs.Answers.{IsDue, IsFile};
ghost use Rattle.apl_page.specs.Texts.{found_due, levels_bytes, listing_due, name_line, names_bytes, source_bytes, variable_line};
ghost use Rattle.apl_page.specs.declared.refusal.Refusal.TheVariants as refusal;

use crate::page::Page;
use crate::refusal::Refusal;
use crate::spelling::spelled;
use apl_charset::{Ch, CharFault, Text, decode_line, push_ascii, push_number};
use apl_faults::{Call, place as place_text};
use apl_kept::{KeptError, Named, Reading, Shape};
use apl_machine::Level;
use apl_session::Bytes;
use apl_symbols::Name;
use std::alloc::{AllocError, Global};

/// `∇ ` and a header.
#[tactic(auto, unfolding(apl_charset::specs::Set::is_member))]
fn function_line(alloc: Global, header: &[Ch]) -> Result<Text, AllocError>
    ensures { IfOk result (λ line. line ≡ 0x2207 ∷ 32 ∷ header.now) }
{
    let mut line = Vec::new(alloc);
    line.push(Ch::member('∇'))?;
    line.push(Ch::ascii(b' '))?;
    line.extend_from_slice(header)?;
    Ok(Text::new(line))
}

/// Adds numbers, a blank before each.
fn push_lengths(line: &mut Vec<Ch>, lengths: &[usize]) -> Result<(), AllocError>
    ensures { OnOk result (line.new.items ≡ line.old.items ++ flat_map (λ n. 32 ∷ decimal n) lengths.now) }
{
    for length in lengths {
        line.push(Ch::ascii(b' '))?;
        push_number(line, *length as u64)?;
    }
    Ok(())
}

/// The name of a variable, a blank, a letter, and the lengths of its axes.
fn variable_line(alloc: Global, name: &Name, letter: Ch, shape: &Shape) -> Result<Text, AllocError>
    ensures { IfOk result (λ line. line ≡ variable_line name.now letter shape.now) }
{
    let mut line = Vec::from_slice(alloc, name.as_slice())?;
    line.push(Ch::ascii(b' '))?;
    line.push(letter)?;
    push_lengths(&mut line, shape.as_slice())?;
    Ok(Text::new(line))
}

/// The line of a name.
fn name_line(alloc: Global, named: &Named) -> Result<Text, AllocError>
    ensures { IfOk result (λ line. line ≡ name_line named.now) }
{
    let name = &named.name;
    match &named.reading {
        Reading::Function(header) => function_line(alloc, header.as_slice()),
        Reading::Numbers(shape) => variable_line(alloc, name, Ch::ascii(b'N'), shape),
        Reading::Characters(shape) => variable_line(alloc, name, Ch::ascii(b'C'), shape),
        Reading::Unset => Ok(Text::new(Vec::from_slice(alloc, name.as_slice())?)),
    }
}

/// The lines of names.
fn name_lines(alloc: Global, names: &[Named]) -> Result<Vec<Text>, AllocError>
    ensures { IfOk result (λ lines. lines.items ≡ map name_line names.now) }
{
    let mut lines = Vec::with_capacity(alloc, names.len())?;
    for named in names {
        lines.push(name_line(alloc, named)?)?;
    }
    Ok(lines)
}

/// A standing call as `)SI` shows it: `FACT[3]`, and ` *` behind it where the call is suspended.
fn level_line(alloc: Global, level: &Level) -> Result<Text, AllocError>
    ensures { IfOk result (λ line. line ≡ shown_level level.now) }
{
    let line = place_text(
        alloc,
        Call {
            name: level.name.as_slice(),
            line: level.line,
        },
    )?;
    if !level.suspended {
        return Ok(line);
    }
    let mut line = line.into_chars();
    push_ascii(&mut line, b" *")?;
    Ok(Text::new(line))
}

/// Standing calls, a line each.
fn level_lines(alloc: Global, levels: &[Level]) -> Result<Vec<Text>, AllocError>
    ensures { IfOk result (λ lines. lines.items ≡ map shown_level levels.now) }
{
    let mut lines = Vec::with_capacity(alloc, levels.len())?;
    for level in levels {
        lines.push(level_line(alloc, level)?)?;
    }
    Ok(lines)
}

/// Bytes, unless memory has run out.
fn or_memory(bytes: Result<Bytes, AllocError>) -> Result<Bytes, Refusal>
    ensures { MatchResult bytes (λ b. result ≡ Ok b) (λ _. result ≡ Err refusal.Memory) }
{
    match bytes {
        Ok(bytes) => Ok(bytes),
        Err(_) => Err(Refusal::Memory),
    }
}

/// The names of a session, spelled.
fn names_bytes(page: &Page) -> Result<Bytes, AllocError>
    ensures { IfOk result (λ b. b ≡ names_bytes page.now) }
{
    let names = page.kept.names()?;
    let lines = name_lines(page.alloc, &names)?;
    Ok(Bytes::new(spelled(page.alloc, &lines)?))
}

/// The names of a session, spelled.
pub(crate) fn names_text(page: &Page) -> Result<Bytes, Refusal>
    ensures { IsDue (Ok (names_bytes page.now)) result }
{
    or_memory(names_bytes(page))
}

/// The standing calls of a session, spelled.
fn levels_bytes(page: &Page) -> Result<Bytes, AllocError>
    ensures { IfOk result (λ b. b ≡ levels_bytes page.now) }
{
    let levels = page.kept.levels()?;
    let lines = level_lines(page.alloc, &levels)?;
    Ok(Bytes::new(spelled(page.alloc, &lines)?))
}

/// The standing calls of a session, spelled.
pub(crate) fn levels_text(page: &Page) -> Result<Bytes, Refusal>
    ensures { IsDue (Ok (levels_bytes page.now)) result }
{
    or_memory(levels_bytes(page))
}

/// The source of the function of a word, spelled, if it names one.
fn source_bytes(page: &Page, word: &[Ch]) -> Result<Option<Bytes>, AllocError>
    ensures { IfOk result (λ found. found ≡ source_bytes page.now (Some word.now)) }
{
    let Some(lines) = page.kept.listing(word)? else {
        return Ok(None);
    };
    Ok(Some(Bytes::new(spelled(page.alloc, &lines)?)))
}

/// The source of the function of a word, spelled.
fn source_text(page: &Page, word: &[Ch]) -> Result<Bytes, Refusal>
    ensures { IsDue (found_due (source_bytes page.now (Some word.now))) result }
{
    match source_bytes(page, word) {
        Ok(Some(bytes)) => Ok(bytes),
        Ok(None) => Err(Refusal::NoFunction),
        Err(_) => Err(Refusal::Memory),
    }
}

/// The source of the function of a name in UTF-8, spelled.
pub(crate) fn listing_text(page: &Page, name: &[u8]) -> Result<Bytes, Refusal>
    ensures { IsDue (listing_due page.now name.now) result }
{
    match decode_line(page.alloc, name) {
        Ok(word) => source_text(page, &word),
        Err(CharFault::Memory) => Err(Refusal::Memory),
        Err(_) => Err(Refusal::NoFunction),
    }
}

/// The file of a session's workspace.
pub(crate) fn file_text(page: &Page) -> Result<Bytes, Refusal>
    ensures { IsFile page.now result }
{
    match page.kept.save() {
        Ok(bytes) => Ok(Bytes::new(bytes)),
        Err(KeptError::Running) => Err(Refusal::Running),
        Err(_) => Err(Refusal::Memory),
    }
}
