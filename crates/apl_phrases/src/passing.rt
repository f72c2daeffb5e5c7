//! Values that phrases pass on: `( B )`, and `⎕ ← B`.
ghost use Rattle.std.specs.Prelude.{◌≡◌, IfErr, IfOk, IfSome};
ghost use Rattle.apl_arrays.specs.declared.stop.Stop.TheVariants.{Memory};
ghost use Rattle.apl_machine_state.specs.Changes.{shown_lines};
ghost use Rattle.apl_operands.specs.Operands.{Offers};
ghost use Rattle.apl_phrases.specs.Effects.{PassesWriting, last_of, outcome_of};
ghost use Rattle.apl_phrases.specs.Kinds.{IsForKind};
ghost use Rattle.apl_phrases.specs.declared.phrase.PhraseKind.TheVariants.{Passes};

use crate::lines::said;
use crate::phrase::Phrase;
use apl_arrays::{Array, Stop};
use apl_code::{Action, Row};
use apl_faults::Fault;
use apl_format::display;
use apl_machine_state::{LineKind, OutLine};
use apl_operands::arguments;
use apl_primitives::Arguments;
use std::alloc::Global;

/// The lines that show a value.
fn shown(alloc: Global, b: &Array) -> Result<Vec<OutLine>, Stop>
    ensures ok { IfOk result (λ lines. lines.items ≡ shown_lines b.now) }
    ensures err { IfErr result (λ stop. stop ≡ Memory) }
{
    let texts = display(alloc, b)?;
    Ok(said(alloc, LineKind::Shown, texts)?)
}

/// The lines that a phrase writes which passes the value on that it takes, or its fault: `( B )` writes none, and `⎕ ← B` those that show the value.
/// A phrase of another kind has none.
pub fn written(alloc: Global, phrase: Phrase<'_, '_>) -> Option<Result<Vec<OutLine>, Stop>>
    requires { Offers phrase.operands phrase.sources.now }
    ensures is { IfSome result (PassesWriting (outcome_of phrase.entry) (last_of phrase.entry)) }
    ensures kind { IsForKind Passes phrase.entry result }
{
    let Action::Phrase(row) = &phrase.instr.action else {
        return None;
    };
    match row {
        Row::Group => match arguments(phrase.sources, phrase.operands) {
            Arguments::One(_) => Some(Ok(Vec::new(alloc))),
            _ => Some(Err(Stop::Fault(Fault::Syntax))),
        },
        Row::Show => match arguments(phrase.sources, phrase.operands) {
            Arguments::One(b) => Some(shown(alloc, b)),
            _ => Some(Err(Stop::Fault(Fault::Syntax))),
        },
        _ => None,
    }
}
