//! Index lists.
ghost use Rattle.std.specs.Prelude.{◌≡◌, IfNone, IfOk, IfSome, false, map, true, ℤ, List, [], ◌∷◌, Option, Some};
ghost use Rattle.apl_arrays.specs.declared.cell.Cell.TheVariants.{Num};
ghost use Rattle.apl_arrays.specs.Simple.{single};
ghost use Rattle.apl_code.specs.declared.instr.Source.{Source};
ghost use Rattle.apl_machine_state.specs.Outcomes.{operand_value};
ghost use Rattle.apl_operands.specs.Operands.{Offers, fetched_from, one_value};
ghost use Rattle.apl_phrases.specs.Effects.{FetchesSlot, MakesSlot, MakesSlots, outcome_of};
ghost use Rattle.apl_phrases.specs.Kinds.{IsForKind, phrase_kind};
ghost use Rattle.apl_phrases.specs.declared.phrase.PhraseKind.TheVariants.{Lists};

use crate::phrase::Phrase;
use apl_arrays::Array;
use apl_code::{Action, Row, Source};
use apl_machine_state::Slots;
use apl_operands::{Held, Operands, fetch, one_value};
use std::alloc::{AllocError, Global};

/// A slot of an index list, and what is left beneath it.
fn slot(
    operands: Operands<'_>,
    source: Option<Source>,
) -> Result<(Option<Array>, Operands<'_>), AllocError>
    requires { Offers operands (source ∷ []) }
    ensures slot { IfOk result (λ r. FetchesSlot operands.entry source r.0 r.1) }
    ensures there { IfOk result (λ r. (more : List (Option Source)) → Offers operands.entry (source ∷ more) → Offers r.1 more) }
{
    let Some(source) = source else {
        return Ok((None, operands));
    };
    let (held, rest) = fetch(operands, source);
    match held {
        Held::Value(array) => Ok((Some(array.copy()?), rest)),
        Held::Slots(_) => Ok((None, rest)),
    }
}

/// The slots of an index list of several.
fn several_slots(
    alloc: Global,
    sources: &[Option<Source>],
    operands: Operands<'_>,
) -> Result<Vec<Option<Array>>, AllocError>
    requires { Offers operands sources.now }
    ensures { IfOk result (λ slots. slots.items ≡ map operand_value (fetched_from operands.entry sources.now)) }
{
    let mut slots = Vec::with_capacity(alloc, sources.len())?;
    let mut rest = operands;
    for source in sources {
        let (one, below) = slot(rest, *source)?;
        slots.push(one)?;
        rest = below;
    }
    Ok(slots)
}

/// The slots of an index list.
fn slots(
    alloc: Global,
    sources: &[Option<Source>],
    operands: Operands<'_>,
) -> Result<Slots, AllocError>
    requires { Offers operands sources.now }
    ensures { IfOk result (λ slots. slots ≡ map operand_value (fetched_from operands.entry sources.now)) }
{
    if let [source] = sources {
        let (only, _beneath) = slot(operands, *source)?;
        return Ok(Slots::one(only));
    }
    let slots = several_slots(alloc, sources, operands)?;
    Ok(Slots::new(slots))
}

/// Whether an instruction makes an index list.
#[inline(always)]
fn makes_list(action: &Action) -> bool
    ensures yes { result ≡ true → phrase_kind action.now ≡ Some Lists }
    ensures no { result ≡ false → ¬ (phrase_kind action.now ≡ Some Lists) }
{
    matches!(action, Action::Box | Action::Phrase(Row::Index(_)))
}

/// The slots of the index list that a phrase makes. A phrase of another kind has none.
pub fn slots_given(alloc: Global, phrase: Phrase<'_, '_>) -> Option<Result<Slots, AllocError>>
    requires { Offers phrase.operands phrase.sources.now }
    ensures is { IfSome result (λ answer. IfOk answer (MakesSlots (outcome_of phrase.entry))) }
    ensures kind { IsForKind Lists phrase.entry result }
{
    if !makes_list(&phrase.instr.action) {
        return None;
    }
    Some(slots(alloc, phrase.sources, phrase.operands))
}

/// The number that an instruction takes, if it takes one value alone and that is a number.
#[inline(always)]
fn lone_number(sources: &[Option<Source>], operands: Operands<'_>) -> Option<i64>
    requires there { Offers operands sources.now }
    ensures is { IfSome result (λ z. one_value (fetched_from operands.entry sources.now) ≡ Some (single (Num z))) }
    ensures none { IfNone result ((z : ℤ) → ¬ (one_value (fetched_from operands.entry sources.now) ≡ Some (single (Num z)))) }
{
    match one_value(sources, operands) {
        Some(value) => value.as_number(),
        None => None,
    }
}

/// The number that is the one slot of the index list that a phrase makes. Another list has none, nor has a phrase of another kind.
#[inline(always)]
pub fn slot_given(phrase: Phrase<'_, '_>) -> Option<i64>
    requires { Offers phrase.operands phrase.sources.now }
    ensures is { IfSome result (MakesSlot phrase.entry) }
    ensures none { IfNone result ((z : ℤ) → ¬ MakesSlot phrase.entry z) }
{
    if !makes_list(&phrase.instr.action) {
        return None;
    }
    lone_number(phrase.sources, phrase.operands)
}
