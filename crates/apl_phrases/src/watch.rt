//! `⎕STOP` and `⎕TRACE`, the stop and trace vectors of functions.
ghost use Rattle.std.specs.Prelude.{◌≡◌, ℤ, List, Option, option_copied, option_map, Some};
ghost use Rattle.apl_arrays.specs.Numbers.{values};
ghost use Rattle.apl_arrays.specs.Cells.{Arr};
ghost use Rattle.apl_machine_state.specs.Outcomes.{rewatch, watch, watched, watched_by};
ghost use Rattle.apl_machine_state.specs.Watching.{is_list, numbers_in};
ghost use Rattle.apl_names.specs.Maps.{function_in, last_map, said};
ghost use Rattle.apl_phrases.specs.Effects.{Does, IsEffect};
ghost use Rattle.apl_phrases.specs.inside.Marks.{chosen};

use crate::effect::Effect;
use crate::lines_among::lines_among;
use crate::scene::Scene;
use apl_arrays::{Array, Elements, NumberSlice, Stop};
use apl_defn::Definition;
use apl_faults::Fault;
use apl_machine_state::Watch;
use apl_names::{Binding, Names};
use apl_symbols::Name;
use std::alloc::Global;

/// Whether an array has at most one axis.
pub fn is_list(array: &Array) -> bool
    ensures { result ≡ is_list array.now }
{
    array.rank() <= 1
}

/// The numbers of an array of numbers, or of one without elements.
fn numbers_in(array: &Array) -> Option<NumberSlice<'_>>
    ensures { option_map values result ≡ numbers_in array.now.items }
{
    match array.items() {
        Elements::Nums(numbers) => Some(numbers),
        Elements::Chars(text) => {
            if text.is_empty() {
                Some(NumberSlice::I64(&[]))
            } else {
                None
            }
        }
    }
}

/// The function that a name stands for globally, whatever calls say of the name.
fn global_function<'a>(names: &'a Names, name: &Name) -> Option<&'a Definition>
    ensures { option_copied result ≡ function_in (said (last_map names.now) name.now) }
{
    match names.global(name) {
        Some(Binding::Function(function)) => Some(function.definition()),
        _ => None,
    }
}

/// What is done where a vector of this function is asked, and is to have the lines among these numbers.
fn ask(
    alloc: Global,
    which: Watch,
    name: Name,
    definition: &Definition,
    numbers: Option<NumberSlice<'_>>,
) -> Result<Effect, Stop>
    ensures { (last : Option Arr) (lines : List ℤ) → IsEffect result last lines (watched_by which name (Some definition.now) (chosen (option_map values numbers.entry))) }
{
    match numbers {
        Some(numbers) => {
            let lines = lines_among(alloc, numbers, definition)?;
            Ok(Effect::Asks(which, name, Some(lines)))
        }
        None => Ok(Effect::Asks(which, name, None)),
    }
}

/// The same of the function that an array names.
fn watched(
    alloc: Global,
    scene: Scene<'_>,
    which: Watch,
    numbers: Option<NumberSlice<'_>>,
    b: &Array,
) -> Result<Effect, Stop>
    ensures { (last : Option Arr) → Does scene.entry last (λ s. watched s which b.now.items (chosen (option_map values numbers.entry))) result }
{
    let Elements::Chars(text) = b.items() else {
        return Err(Stop::Fault(Fault::Domain));
    };
    let Some(name) = Name::new(text) else {
        return Err(Stop::Fault(Fault::Domain));
    };
    match global_function(scene.names, &name) {
        Some(definition) => ask(alloc, which, name, definition, numbers),
        None => Err(Stop::Fault(Fault::Domain)),
    }
}

/// `⎕STOP B` and `⎕TRACE B`
pub fn watch(alloc: Global, scene: Scene<'_>, which: Watch, b: &Array) -> Result<Effect, Stop>
    ensures { (last : Option Arr) → Does scene.entry last (λ s. watch s which b.now) result }
{
    if !is_list(b) {
        return Err(Stop::Fault(Fault::Rank));
    }
    watched(alloc, scene, which, None, b)
}

/// `A ⎕STOP B` and `A ⎕TRACE B`
pub fn rewatch(
    alloc: Global,
    scene: Scene<'_>,
    which: Watch,
    a: &Array,
    b: &Array,
) -> Result<Effect, Stop>
    ensures { (last : Option Arr) → Does scene.entry last (λ s. rewatch s which a.now b.now) result }
{
    if !is_list(a) || !is_list(b) {
        return Err(Stop::Fault(Fault::Rank));
    }
    match numbers_in(a) {
        Some(numbers) => watched(alloc, scene, which, Some(numbers), b),
        None => Err(Stop::Fault(Fault::Domain)),
    }
}
