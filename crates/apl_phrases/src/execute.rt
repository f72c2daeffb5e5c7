//! `⍎`, a text that is executed.
ghost use Rattle.std.specs.Prelude.{◌≡◌, IfSome};
ghost use Rattle.apl_machine_state.specs.Outcomes.{execute};
ghost use Rattle.apl_operands.specs.Operands.{Offers};
ghost use Rattle.apl_phrases.specs.Effects.{outcome_of};
ghost use Rattle.apl_phrases.specs.Executing.{ExecutesAs};
ghost use Rattle.apl_phrases.specs.Kinds.{IsForKind};
ghost use Rattle.apl_phrases.specs.declared.phrase.PhraseKind.TheVariants.{Executes};

use crate::phrase::Phrase;
use crate::watch::is_list;
use apl_arrays::{Array, Elements};
use apl_charset::Ch;
use apl_code::{Action, Function, Row};
use apl_faults::Fault;
use apl_operands::arguments;
use apl_primitives::Arguments;
use apl_symbols::Primitive;

/// The text that a list is, or the fault of an array that is none. A list without elements is the empty text.
fn list_text(b: &Array) -> Result<&[Ch], Fault>
    ensures { ExecutesAs (λ s. execute s b.now) result }
{
    if !is_list(b) {
        return Err(Fault::Rank);
    }
    match b.items() {
        Elements::Chars(text) => Ok(text),
        Elements::Nums(numbers) => {
            if numbers.is_empty() {
                Ok(&[])
            } else {
                Err(Fault::Domain)
            }
        }
    }
}

/// The text that `⍎ B` executes, or the fault of the phrase. A phrase of another kind has none.
pub fn executed<'line>(phrase: Phrase<'_, 'line>) -> Option<Result<&'line [Ch], Fault>>
    requires { Offers phrase.operands phrase.sources.now }
    ensures is { IfSome result (ExecutesAs (outcome_of phrase.entry)) }
    ensures kind { IsForKind Executes phrase.entry result }
{
    let Action::Phrase(Row::Monadic(Function::Primitive(Primitive::Execute))) = &phrase.instr.action
    else {
        return None;
    };
    match arguments(phrase.sources, phrase.operands) {
        Arguments::One(b) => Some(list_text(b)),
        _ => Some(Err(Fault::Syntax)),
    }
}
