// The words of a text.
ghost use Rattle.std.specs.Prelude.{◌≡◌, ◌==◌, ◌<◌, ◌∷◌, [], length, not, IfOk, IfSome, MatchOption, option_map};
ghost use Rattle.std.specs.List.{position};
ghost use Rattle.apl_session.specs.Commands as model;

use apl_charset::Ch;
use apl_defn::name_of;
use apl_symbols::Name;
use std::alloc::{AllocError, Global};

/// The place of the first blank.
fn blank_at(text: &[Ch]) -> Option<usize>
    ensures { result ≡ position (λ c. c == 32) text.now }
{
    text.iter().position(|c| *c == Ch::default())
}

/// What stands before the first blank, and the rest with that blank.
#[tactic(auto, using(crate::proofs::Blanks::word_by_word))]
pub fn split_blank(text: &[Ch]) -> (&[Ch], &[Ch])
    ensures word { result.0.now ≡ model.before_blank text.now }
    ensures rest { result.1.now ≡ model.from_blank text.now }
{
    text.split_at(blank_at(text).unwrap_or(text.len()))
}

/// The place of the first character that is no blank.
fn word_at(text: &[Ch]) -> Option<usize>
    ensures { result ≡ position (λ c. not (c == 32)) text.now }
{
    text.iter().position(|c| *c != Ch::default())
}

/// The first word, and what stands behind it.
#[tactic(auto, using(crate::proofs::Blanks::word_by_word))]
pub fn next_word(text: &[Ch]) -> Option<(&[Ch], &[Ch])>
    ensures words { MatchOption result (model.words_of text.now ≡ []) (λ w. model.words_of text.now ≡ w.0.now ∷ model.words_of w.1.now) }
    ensures shorter { IfSome result (λ w. length w.1.now < length text.now) }
{
    let Some(at) = word_at(text) else {
        return None;
    };
    let (_, words) = text.split_at(at);
    Some(split_blank(words))
}

/// The words of a text as names, if each is one.
pub fn names_in(alloc: Global, text: &[Ch]) -> Result<Option<Vec<Name>>, AllocError>
    ensures { IfOk result (λ names. option_map (λ v. v.items) names ≡ model.names_in (model.words_of text.now)) }
{
    let mut names = Vec::new(alloc);
    let mut rest = text;
    while let Some((word, behind)) = next_word(rest) {
        let Some(name) = name_of(alloc, word)? else {
            return Ok(None);
        };
        names.push(name)?;
        rest = behind;
    }
    Ok(Some(names))
}
