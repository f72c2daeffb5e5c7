// The function that lines define.
ghost use Rattle.std.specs.Prelude.{◌≡◌, ◌==◌, ◌∷◌, ◌++◌, map, IfOk, OnOk};
ghost use Rattle.std.specs.List.{list_any};
ghost use Rattle.apl_tokens.specs.Tokens.{tokens_of};
ghost use Rattle.apl_defn.specs.Headers.{names_of};
ghost use Rattle.apl_defn.specs.Reading.{Answers};
ghost use Rattle.apl_defn.specs.Defining.{label_in, label_among, labelled, labels_from, first_fault, made, once_each, IsWhole, defined_of};

use crate::definition::Definition;
use crate::error::DefnError;
use crate::line::tokens_in;
use crate::parts::Header;
use crate::reading::{are_distinct, head_of, name_in, names_of};
use apl_charset::{Ch, Text};
use apl_symbols::Name;
use apl_tokens::{Token, is_read};
use std::alloc::{AllocError, Global};

/// The most lines that a function has.
const MOST_LINES: usize = 999;

/// The label of tokens: the name that they begin with, where a colon stands behind it.
pub fn label_in(tokens: &[Token]) -> Option<Name>
    ensures { result ≡ label_in tokens.now }
{
    let [first, second, ..] = tokens else {
        return None;
    };
    if !second.kind.is_colon() {
        return None;
    }
    name_in(&first.kind)
}

/// The number of the first line that is faulty.
fn first_fault(lines: &[Text]) -> Option<usize>
    ensures { result ≡ first_fault 1 lines.now }
{
    for (i, line) in lines.iter().enumerate() {
        if !is_read(line.as_slice()) {
            return Some(i + 1);
        }
    }
    None
}

/// Whether a colon stands in a text.
fn has_colon(text: &[Ch]) -> bool
    ensures { result ≡ list_any (λ c. c == 58) text.now }
{
    let colon = Ch::ascii(b':');
    for c in text {
        if *c == colon {
            return true;
        }
    }
    false
}

/// The label of a line. Tokens are made only where a colon stands in it.
#[tactic(auto, using(crate::proofs::Colons::no_label, crate::proofs::Colons::faulty_label))]
fn label_of(alloc: Global, line: &[Ch]) -> Result<Option<Name>, AllocError>
    ensures { IfOk result (λ label. label ≡ label_among (tokens_of line.now)) }
{
    if !has_colon(line) {
        return Ok(None);
    }
    match tokens_in(alloc, line)? {
        Some(tokens) => return Ok(label_in(&tokens)),
        None => return Ok(None),
    }
}

/// Adds the label of a line with the line's number at the end.
fn push_label(
    alloc: Global,
    labels: &mut Vec<(Name, usize)>,
    line: &[Ch],
    n: usize,
) -> Result<(), AllocError>
    ensures { OnOk result (labels.new.items ≡ labels.old.items ++ labelled n (label_among (tokens_of line.now))) }
{
    let Some(label) = label_of(alloc, line)? else {
        return Ok(());
    };
    labels.push((label, n))?;
    Ok(())
}

/// The labels of lines, each with its line's number.
fn labels_of(alloc: Global, lines: &[Text]) -> Result<Vec<(Name, usize)>, AllocError>
    ensures { IfOk result (λ v. v.items ≡ labels_from 1 lines.now) }
{
    let mut labels = Vec::new(alloc);
    for (i, line) in lines.iter().enumerate() {
        push_label(alloc, &mut labels, line.as_slice(), i + 1)?;
    }
    Ok(labels)
}

/// The names of a header and of labels.
fn all_names(
    alloc: Global,
    header: &Header,
    labels: &[(Name, usize)],
) -> Result<Vec<Name>, AllocError>
    ensures { IfOk result (λ v. v.items ≡ names_of header.now ++ map (λ label. label.0) labels.now) }
{
    let mut names = names_of(alloc, header)?;
    for (name, _) in labels {
        names.push(*name)?;
    }
    Ok(names)
}

/// The function of a header and lines, where no name stands twice.
fn assembled(alloc: Global, header: Header, lines: Vec<Text>) -> Result<Definition, DefnError>
    requires { IsWhole header lines.items }
    ensures { Answers result (once_each (made header lines.items)) }
{
    let labels = labels_of(alloc, lines.as_slice())?;
    let names = all_names(alloc, &header, labels.as_slice())?;
    if !are_distinct(names.as_slice()) {
        return Err(DefnError::Twice);
    }
    Ok(Definition::new(header, lines, labels))
}

/// The function that these lines define behind a header.
#[tactic(auto, unfolding(crate::specs::Defining::defined_of))]
fn define_behind(alloc: Global, first: &Text, lines: Vec<Text>) -> Result<Definition, DefnError>
    ensures { Answers result (defined_of (first.now ∷ lines.items)) }
{
    let Some(header) = head_of(alloc, first.as_slice())? else {
        return Err(DefnError::Header);
    };
    if lines.len() > MOST_LINES {
        return Err(DefnError::TooLong);
    }
    if let Some(line) = first_fault(lines.as_slice()) {
        return Err(DefnError::Line { line });
    }
    assembled(alloc, header, lines)
}

/// The function that lines define, the first of which is its header. The others move into it as they
/// stand, and a line that begins with a name and a colon has that label. Errors, the first in this
/// order: Header where there is no line or the first is no header; TooLong where more than 999 lines
/// stand behind it; Line, the first line with a fault of its tokens, as one with more than 500
/// characters; Twice where a name stands twice among those of the header and the labels; Memory.
#[tactic(auto, unfolding(crate::specs::Defining::defined_of))]
pub fn define(alloc: Global, lines: Vec<Text>) -> Result<Definition, DefnError>
    // It is the one answer for the lines.
    ensures { Answers result (defined_of lines.items) }
{
    let mut behind = lines;
    if behind.is_empty() {
        return Err(DefnError::Header);
    }
    let first = behind.remove(0);
    define_behind(alloc, &first, behind)
}
