//! Requests that look at a session.
ghost use Rattle.std.specs.Prelude.{◌≡◌, IfOk, Some, codes, option_map, option_and_then};
ghost use Rattle.apl_charset.specs.Decoding.{decoded};
ghost use Rattle.apl_workspace_file.specs.Trees.{list_tree};
ghost use Rattle.apl_kept.specs.Indicator.{indicator};
ghost use Rattle.apl_kept.specs.Names.{names_of};
ghost use Rattle.apl_serve.specs.Answers.{Answered, Saves, listing_answer, value_answer};
ghost use Rattle.apl_serve.specs.Trees.{answer_tree, call_tree, named_tree};

use crate::answer::{answer_array, answer_list};
use crate::error::Refusal;
use apl_charset::{Ch, CharFault, decode_line};
use apl_kept::{Kept, KeptError};
use apl_session::Bytes;
use apl_symbols::Name;
use std::alloc::{AllocError, Global};

/// The global names, and what is read under each.
pub(crate) fn names(alloc: Global, kept: &Kept) -> Result<Bytes, Refusal>
    ensures { Answered (Some (answer_tree (codes "names") (list_tree named_tree (names_of kept.now)))) Refusal.Memory result }
{
    let names = kept.names()?;
    Ok(answer_list(alloc, "names", &names)?)
}

/// The state indicator.
pub(crate) fn indicator(alloc: Global, kept: &Kept) -> Result<Bytes, Refusal>
    ensures { Answered (Some (answer_tree (codes "indicator") (list_tree call_tree (indicator kept.now.contexts)))) Refusal.Memory result }
{
    let calls = kept.indicator()?;
    Ok(answer_list(alloc, "indicator", &calls)?)
}

/// The characters of a word, if it has only such of the set.
fn word_of(alloc: Global, word: &str) -> Result<Option<Vec<Ch>>, AllocError>
    ensures { IfOk result (λ found. option_map (λ characters. characters.items) found ≡ decoded word.now) }
{
    match decode_line(alloc, word.as_bytes()) {
        Ok(characters) => Ok(Some(characters)),
        Err(CharFault::Memory) => Err(AllocError),
        Err(CharFault::NotUtf8 { .. } | CharFault::NotInSet { .. }) => Ok(None),
    }
}

/// The header and the lines of a function.
pub(crate) fn listing(alloc: Global, kept: &Kept, word: &str) -> Result<Bytes, Refusal>
    ensures { Answered (listing_answer kept.now word.now) Refusal.Function result }
{
    let Some(word) = word_of(alloc, word)? else {
        return Err(Refusal::Function);
    };
    let Some(lines) = kept.listing(&word)? else {
        return Err(Refusal::Function);
    };
    Ok(answer_list(alloc, "listing", &lines)?)
}

/// The value of a name.
pub(crate) fn value(alloc: Global, kept: &Kept, word: &str) -> Result<Bytes, Refusal>
    ensures { Answered (value_answer kept.now word.now) Refusal.Value result }
{
    let Some(word) = word_of(alloc, word)? else {
        return Err(Refusal::Value);
    };
    let Some(name) = Name::new(&word) else {
        return Err(Refusal::Value);
    };
    let Some(array) = kept.value(&name) else {
        return Err(Refusal::Value);
    };
    Ok(answer_array(alloc, "value", array)?)
}

/// The file of the workspace.
pub(crate) fn save(alloc: Global, kept: &Kept) -> Result<Bytes, Refusal>
    ensures { Saves kept.now result }
{
    let file = match kept.save() {
        Ok(file) => file,
        Err(KeptError::Running) => return Err(Refusal::Running),
        Err(_) => return Err(Refusal::Memory),
    };
    let mut line = Vec::from_slice(alloc, "{\"workspace\":".as_bytes())?;
    line.extend_from_slice(&file)?;
    line.extend_from_slice("}\n".as_bytes())?;
    Ok(Bytes::new(line))
}
