//! Assignments to names.
ghost use Rattle.std.specs.Prelude.{◌≡◌, IfOk, IfSome, Some};
ghost use Rattle.apl_operands.specs.Operands.{Offers};
ghost use Rattle.apl_phrases.specs.Assigning.{AssignsAs, AssignsAt as WritesAt, AssignsValue};
ghost use Rattle.apl_phrases.specs.Effects.{last_of, outcome_of};
ghost use Rattle.apl_phrases.specs.Kinds.{IsForKind, phrase_kind};
ghost use Rattle.apl_phrases.specs.declared.phrase.PhraseKind.TheVariants.{Assigns, AssignsAt};

use crate::phrase::Phrase;
use apl_arrays::Array;
use apl_code::{Action, Row, Variable};
use apl_faults::Fault;
use apl_names::Binding;
use apl_operands::{arguments, value_from};
use apl_primitives::Arguments;
use apl_symbols::Name;

/// The name and the value of `V ← B` of a name that has a value, or is unset: what else the name may stand for isn't asked. There are none where
/// a phrase is another, or takes something else.
#[tactic(auto, using(apl_operands::proofs::Fetching::one_taken))]
#[inline(always)]
pub fn assignment<'line>(phrase: Phrase<'_, 'line>) -> Option<(&'line Name, &'line Array)>
    requires { Offers phrase.operands phrase.sources.now }
    ensures is { IfSome result (λ r. AssignsValue (outcome_of phrase.entry) r.0.now r.1.now) }
    ensures last { IfSome result (λ r. last_of phrase.entry ≡ Some r.1.now) }
    ensures kind { IfSome result (λ r. phrase_kind phrase.entry.instr.now.action ≡ Some Assigns) }
{
    let Action::Phrase(Row::Assign(Variable::Name(name))) = &phrase.instr.action else {
        return None;
    };
    let [Some(source)] = phrase.sources else {
        return None;
    };
    let b = value_from(phrase.operands, *source)?;
    Some((name, b))
}

/// The name that `V ← B` of a name assigns to and the value, or the fault of the phrase. A phrase of another kind has none.
#[tactic(auto, using(apl_operands::proofs::Fetching::one_taken))]
#[inline(always)]
pub fn assigned<'line>(
    phrase: Phrase<'_, 'line>,
) -> Option<Result<(&'line Name, &'line Array), Fault>>
    requires { Offers phrase.operands phrase.sources.now }
    ensures is { IfSome result (AssignsAs phrase.entry.scene (outcome_of phrase.entry)) }
    ensures last { IfSome result (λ answer. IfOk answer (λ r. last_of phrase.entry ≡ Some r.1.now)) }
    ensures kind { IsForKind Assigns phrase.entry result }
{
    let Action::Phrase(Row::Assign(Variable::Name(name))) = &phrase.instr.action else {
        return None;
    };
    let Arguments::One(b) = arguments(phrase.sources, phrase.operands) else {
        return Some(Err(Fault::Syntax));
    };
    match phrase.scene.names.binding(name) {
        Some(Binding::Label(_)) => Some(Err(Fault::Syntax)),
        Some(Binding::Function(_)) => Some(Err(Fault::Syntax)),
        _ => Some(Ok((name, b))),
    }
}

/// The name that `V K ← B` of a name assigns to, the slots that are written and the value, or the fault of a phrase that takes something else.
/// A phrase of another kind has none.
#[tactic(auto, using(apl_operands::proofs::Fetching::slots_taken))]
#[inline(always)]
pub fn assigned_indexed<'line>(
    phrase: Phrase<'_, 'line>,
) -> Option<Result<(&'line Name, &'line [Option<Array>], &'line Array), Fault>>
    requires { Offers phrase.operands phrase.sources.now }
    ensures is { IfSome result (WritesAt (outcome_of phrase.entry)) }
    ensures last { IfSome result (λ answer. IfOk answer (λ r. last_of phrase.entry ≡ Some r.2.now)) }
    ensures kind { IsForKind AssignsAt phrase.entry result }
{
    let Action::Phrase(Row::AssignIndexed(Variable::Name(name))) = &phrase.instr.action else {
        return None;
    };
    match arguments(phrase.sources, phrase.operands) {
        Arguments::ListAndOne(slots, b) => Some(Ok((name, slots, b))),
        _ => Some(Err(Fault::Syntax)),
    }
}
