//! Phrases with system names.
ghost use Rattle.std.specs.Prelude.{◌≡◌, IfSome, List, Option};
ghost use Rattle.apl_arrays.specs.Cells.{Arr};
ghost use Rattle.apl_code.specs.declared.row.Function.TheVariants as Function;
ghost use Rattle.apl_code.specs.declared.row.Variable.TheVariants as Variable;
ghost use Rattle.apl_machine_state.specs.Outcomes.{called, dyadic, monadic};
ghost use Rattle.apl_primitives.specs.Taken.{as_taken};
ghost use Rattle.apl_operands.specs.Operands.{Offers};
ghost use Rattle.apl_phrases.specs.Effects.{Does, last_of, outcome_of};
ghost use Rattle.apl_phrases.specs.Kinds.{IsForKind};
ghost use Rattle.apl_phrases.specs.declared.phrase.PhraseKind.TheVariants.{Systems};
ghost use Rattle.apl_phrases.specs.declared.scene.Scene.{Scene as LentScene};

use crate::assign::{assign, assign_indexed};
use crate::effect::Effect;
use crate::name_class::name_class;
use crate::phrase::Phrase;
use crate::scene::Scene;
use crate::watch::{rewatch, watch};
use apl_arrays::Stop;
use apl_code::{Action, Function, Row, Variable};
use apl_faults::Fault;
use apl_machine_state::Watch;
use apl_operands::arguments;
use apl_primitives::Arguments;
use apl_symbols::SystemName;
use std::alloc::Global;

/// `N`
fn call(system: SystemName) -> Result<Effect, Stop>
    ensures { (scene : LentScene) (last : Option Arr) → Does scene last (λ s. called s (Variable.System system)) result }
{
    match system {
        SystemName::LineCounter => Ok(Effect::GivesLineNumbers),
        _ => Err(Stop::Fault(Fault::Syntax)),
    }
}

/// `F B`, where a phrase takes this.
fn monadic(
    alloc: Global,
    scene: Scene<'_>,
    system: SystemName,
    arguments: Arguments<'_>,
) -> Result<Effect, Stop>
    ensures { (last : Option Arr) → Does scene.entry last (λ s. monadic s (Function.System system) (as_taken arguments.entry)) result }
{
    let Arguments::One(b) = arguments else {
        return Err(Stop::Fault(Fault::Syntax));
    };
    match system {
        SystemName::NameClass => name_class(alloc, scene, b),
        SystemName::Stop => watch(alloc, scene, Watch::Stop, b),
        SystemName::Trace => watch(alloc, scene, Watch::Trace, b),
        _ => Err(Stop::Fault(Fault::Syntax)),
    }
}

/// `B F B`, where a phrase takes this.
fn dyadic(
    alloc: Global,
    scene: Scene<'_>,
    system: SystemName,
    arguments: Arguments<'_>,
) -> Result<Effect, Stop>
    ensures { (last : Option Arr) → Does scene.entry last (λ s. dyadic s (Function.System system) (as_taken arguments.entry)) result }
{
    let Arguments::Two(a, b) = arguments else {
        return Err(Stop::Fault(Fault::Syntax));
    };
    match system {
        SystemName::Stop => rewatch(alloc, scene, Watch::Stop, a, b),
        SystemName::Trace => rewatch(alloc, scene, Watch::Trace, a, b),
        _ => Err(Stop::Fault(Fault::Syntax)),
    }
}

/// What a phrase with a system name does, other than `V`, or its fault. A phrase of another kind does none of this.
pub fn effect_of(alloc: Global, phrase: Phrase<'_, '_>) -> Option<Result<Effect, Stop>>
    requires { Offers phrase.operands phrase.sources.now }
    ensures is { IfSome result (Does phrase.entry.scene (last_of phrase.entry) (outcome_of phrase.entry)) }
    ensures kind { IsForKind Systems phrase.entry result }
{
    let Action::Phrase(row) = &phrase.instr.action else {
        return None;
    };
    let scene = phrase.scene;
    let arguments = arguments(phrase.sources, phrase.operands);
    match row {
        Row::Call(Variable::System(system)) => Some(call(*system)),
        Row::Monadic(Function::System(system)) => Some(monadic(alloc, scene, *system, arguments)),
        Row::Dyadic(Function::System(system)) => Some(dyadic(alloc, scene, *system, arguments)),
        Row::Assign(Variable::System(system)) => Some(assign(scene, *system, arguments)),
        Row::AssignIndexed(Variable::System(system)) => {
            Some(assign_indexed(alloc, scene, *system, arguments))
        }
        _ => None,
    }
}
