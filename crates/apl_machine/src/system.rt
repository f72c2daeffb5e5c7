//! Phrases with system names, done in place.
ghost use Rattle.std.specs.Prelude.{◌≡◌, ◌≤◌, IfOk, IfSome, OnErr, OnOk, length, option_map};
ghost use Rattle.apl_arrays.specs.Cells.{Numbers};
ghost use Rattle.apl_arrays.specs.Simple.{vector};
ghost use Rattle.apl_contexts.specs.Contexts.{lines_in, standing};
ghost use Rattle.apl_machine_state.specs.Watching.{lines_array};
ghost use Rattle.apl_machine_state.specs.declared.operand.Operand.TheVariants.{Value};
ghost use Rattle.apl_operands.specs.declared.operands.Given.TheVariants.{New};
ghost use Rattle.apl_order.specs.Kept.{IsKept};
ghost use Rattle.apl_phrases.specs.declared.phrase.PhraseKind.{PhraseKind};
ghost use Rattle.apl_phrases.specs.declared.phrase.PhraseKind.TheVariants.{Systems};
ghost use Rattle.apl_vectors.specs.Vectors.{after_asking, vector_of};
ghost use Rattle.apl_machine.specs.Changes.{settings_asked, watched};
ghost use Rattle.apl_machine.specs.Spaces.{IsSound, state_of};
ghost use Rattle.apl_machine.specs.inside.Next.{GoesTo, HasMade, IsOfOthers};
ghost use Rattle.apl_machine.specs.inside.Traces.{AreFew};

use crate::traces::lines_array;
use crate::workspace::Workspace;
use apl_arrays::{Array, Origin, Ravel};
use apl_contexts::{Contexts, Move};
use apl_machine_state::Watch;
use apl_operands::{Given, last_operand};
use apl_phrases::{Effect, effect_of};
use apl_symbols::Name;
use apl_vectors::Vectors;
use std::alloc::{AllocError, Global};

/// `⎕LC`: the line numbers of the standing calls.
#[tactic(auto, using(crate::proofs::Few::as_many_lines))]
fn line_counter(alloc: Global, contexts: &Contexts) -> Result<Array, AllocError>
    requires few { standing contexts.now ≤ 256 }
    ensures { IfOk result (λ array. array ≡ vector (Numbers (lines_in contexts.now))) }
{
    let numbers = contexts.line_numbers(alloc)?;
    Array::vector(alloc, Ravel::wide(numbers))
}

/// The vector of a function as an array; the vector is replaced where there is a new one. After an
/// error nothing has changed.
fn asked(
    alloc: Global,
    vectors: &mut Vectors,
    name: &Name,
    lines: Option<Vec<usize>>,
) -> Result<Array, AllocError>
    requires new { IfSome lines (λ v. length v.items ≤ 999) }
    requires few { AreFew (vector_of name.now vectors.old) }
    ensures array { IfOk result (λ array. array ≡ lines_array (vector_of name.now vectors.old)) }
    ensures ok { OnOk result (vectors.new ≡ after_asking name.now (option_map (λ v. v.items) lines) vectors.old) }
    ensures err { OnErr result (vectors.new ≡ vectors.old) }
{
    let array = lines_array(alloc, vectors.get(name))?;
    if let Some(lines) = lines {
        vectors.set(name, lines)?;
    }
    Ok(array)
}

impl Workspace {
    /// The step of a phrase that gives the stop or trace vector of a function, which is replaced where there is a new one.
    fn ask(
        &mut self,
        which: Watch,
        name: &Name,
        lines: Option<Vec<usize>>,
        left: usize,
    ) -> Result<bool, AllocError>
        requires asks { GoesTo (New (Value (lines_array (vector_of name.now (watched which self.old.kept))))) left self.old (record self.old { kept = settings_asked which name.now (option_map (λ v. v.items) lines) self.old.kept }) }
        requires new { IfSome lines (λ v. length v.items ≤ 999) }
        requires few { AreFew (vector_of name.now (watched which self.old.kept)) }
        ensures made { HasMade result self.old self.new }
        ensures other { (kind : PhraseKind) → IsOfOthers kind result self.old }
    {
        match which {
            Watch::Stop => {
                let vector = asked(self.alloc, &mut self.stops, name, lines)?;
                self.contexts.give(left, vector);
                Ok(true)
            }
            Watch::Trace => {
                let vector = asked(self.alloc, &mut self.traces, name, lines)?;
                self.contexts.give(left, vector);
                Ok(true)
            }
        }
    }

    /// The step of a phrase with a system name, other than `V`.
    #[inline(never)]
    pub(crate) fn system_in_place(&mut self) -> Result<bool, AllocError>
        requires sound { IsSound self.old }
        requires kept { IsKept (state_of self.old) }
        ensures made { HasMade result self.old self.new }
        ensures other { IsOfOthers Systems result self.old }
    {
        let Some(phrase) = self.next() else {
            return Ok(false);
        };
        let Some(answer) = effect_of(self.alloc, phrase) else {
            return Ok(false);
        };
        let (left, column) = (phrase.left(), phrase.instr.at);
        let effect = match answer {
            Ok(effect) => effect,
            Err(stop) => return self.fail_by(stop, column),
        };
        match effect {
            Effect::Gives(array) => {
                self.give(left, array);
                Ok(true)
            }
            Effect::GivesLineNumbers => {
                let numbers = line_counter(self.alloc, &self.contexts)?;
                self.give(left, numbers);
                Ok(true)
            }
            Effect::Asks(which, name, lines) => self.ask(which, &name, lines, left),
            Effect::Assigns(name, array) => {
                let (given, left) = last_operand(phrase.sources, phrase.operands)?;
                self.assign(&name, array, given, left)
            }
            Effect::SetsOrigin(origin) => {
                let (given, left) = last_operand(phrase.sources, phrase.operands)?;
                self.set_origin(origin, given, left);
                Ok(true)
            }
        }
    }
}
