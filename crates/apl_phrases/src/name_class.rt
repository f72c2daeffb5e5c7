//! `⎕NC`, the class of a name.
ghost use Rattle.std.specs.Prelude.{◌≡◌, ℤ, List, Option, option_copied};
ghost use Rattle.apl_arrays.specs.Cells.{Arr};
ghost use Rattle.apl_machine_state.specs.Outcomes.{class_number, name_class, number_of_binding};
ghost use Rattle.apl_phrases.specs.Effects.{Does, seen};

use crate::assign::number;
use crate::effect::Effect;
use crate::scene::Scene;
use apl_arrays::{Array, Elements, Stop};
use apl_defn::{name_of, trimmed};
use apl_faults::Fault;
use apl_names::Binding;
use apl_symbols::Name;
use std::alloc::Global;

/// The class of what a name stands for.
fn number_of_binding(binding: Option<&Binding>) -> u16
    ensures { result ≡ number_of_binding (option_copied binding.entry) }
{
    match binding {
        None => 0,
        Some(Binding::Unset) => 0,
        Some(Binding::Label(_)) => 1,
        Some(Binding::Value(_)) => 2,
        Some(Binding::Function(_)) => 3,
    }
}

/// The class of a name, or of a text that is none.
fn class_number(scene: Scene<'_>, name: Option<Name>) -> u16
    ensures { (lines : List ℤ) → result ≡ class_number (seen scene.entry lines) name }
{
    match name {
        Some(name) => number_of_binding(scene.names.binding(&name)),
        None => 4,
    }
}

/// `⎕NC B`
pub fn name_class(alloc: Global, scene: Scene<'_>, b: &Array) -> Result<Effect, Stop>
    ensures { (last : Option Arr) → Does scene.entry last (λ s. name_class s b.now) result }
{
    if b.rank() > 1 {
        return Err(Stop::Fault(Fault::Rank));
    }
    match b.items() {
        Elements::Nums(_) => Err(Stop::Fault(Fault::Domain)),
        Elements::Chars(text) => {
            let name = name_of(alloc, trimmed(text))?;
            Ok(Effect::Gives(number(class_number(scene, name))))
        }
    }
}
