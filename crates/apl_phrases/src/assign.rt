//! System names that are assigned to.
ghost use Rattle.std.specs.Prelude.{◌≡◌, List, Option, Some, option_map};
ghost use Rattle.apl_arrays.specs.Cells.{Arr};
ghost use Rattle.apl_arrays.specs.Origins.{origin_number};
ghost use Rattle.apl_code.specs.declared.row.Variable.TheVariants as Variable;
ghost use Rattle.apl_machine_state.specs.Environment.{scalar};
ghost use Rattle.apl_machine_state.specs.declared.operand.Operand.{Operand};
ghost use Rattle.apl_machine_state.specs.Outcomes.{as_origin, assign, assign_indexed, assign_one, assign_slots};
ghost use Rattle.apl_machine_state.specs.Outcomes.{origin_set, taken_of};
ghost use Rattle.apl_operands.specs.Operands.{last_value};
ghost use Rattle.apl_primitives.specs.Taken.{as_taken};
ghost use Rattle.apl_phrases.specs.Effects.{Does};

use crate::effect::Effect;
use crate::scene::{Scene, origin_name};
use apl_arrays::{Array, Elements, Origin, Stop};
use apl_faults::Fault;
use apl_primitives::Arguments;
use apl_select::index_assign;
use apl_symbols::SystemName;
use std::alloc::Global;

/// The scalar of a small number.
pub fn number(number: u16) -> Array
    ensures { result ≡ scalar number }
{
    Array::number(i64::from(number))
}

/// The scalar of an index origin.
pub fn origin_scalar(origin: Origin) -> Array
    ensures { result ≡ scalar (origin_number origin) }
{
    number(origin.number() as u16)
}

/// The origin that one element 0 or 1 is.
fn as_origin(array: &Array) -> Option<Origin>
    ensures { option_map origin_number result ≡ as_origin array.now.items }
{
    match array.items() {
        Elements::Nums(numbers) => match numbers.only() {
            Some(0) => Some(Origin::Zero),
            Some(1) => Some(Origin::One),
            _ => None,
        },
        Elements::Chars(_) => None,
    }
}

/// `⎕IO ← B`, where B is this origin if it is one.
fn set_origin(scene: Scene<'_>, origin: Option<Origin>) -> Result<Effect, Stop>
    ensures { (b : Arr) → Does scene.entry (Some b) (λ s. origin_set s (option_map origin_number origin) b) result }
{
    let Some(origin) = origin else {
        return Err(Stop::Fault(Fault::Domain));
    };
    let name = origin_name();
    match scene.names.binding(&name) {
        Some(_) => Ok(Effect::Assigns(name, origin_scalar(origin))),
        None => Ok(Effect::SetsOrigin(origin)),
    }
}

/// `V ← B`
fn assign_one(scene: Scene<'_>, system: SystemName, b: &Array) -> Result<Effect, Stop>
    ensures { Does scene.entry (Some b.now) (λ s. assign_one s (Variable.System system) b.now) result }
{
    match system {
        SystemName::Origin => set_origin(scene, as_origin(b)),
        _ => Err(Stop::Fault(Fault::Syntax)),
    }
}

/// `V ← B`, where a phrase takes this.
#[tactic(auto, using(apl_operands::proofs::Fetching::one_taken))]
pub fn assign(
    scene: Scene<'_>,
    system: SystemName,
    arguments: Arguments<'_>,
) -> Result<Effect, Stop>
    ensures { (os : List (Option Operand)) → as_taken arguments.entry ≡ taken_of os → Does scene.entry (last_value os) (λ s. assign s (Variable.System system) (as_taken arguments.entry)) result }
{
    match arguments {
        Arguments::One(b) => assign_one(scene, system, b),
        _ => Err(Stop::Fault(Fault::Syntax)),
    }
}

/// `V K ← B`
fn assign_slots(
    alloc: Global,
    scene: Scene<'_>,
    system: SystemName,
    slots: &[Option<Array>],
    b: &Array,
) -> Result<Effect, Stop>
    ensures { Does scene.entry (Some b.now) (λ s. assign_slots s (Variable.System system) slots.now b.now) result }
{
    let SystemName::Origin = system else {
        return Err(Stop::Fault(Fault::Syntax));
    };
    let origin = scene.origin();
    let now = origin_scalar(origin);
    match index_assign(alloc, &now, slots, b, origin) {
        Ok(array) => set_origin(scene, as_origin(&array)),
        Err(stop) => Err(stop),
    }
}

/// `V K ← B`, where a phrase takes this.
#[tactic(auto, using(apl_operands::proofs::Fetching::slots_taken))]
pub fn assign_indexed(
    alloc: Global,
    scene: Scene<'_>,
    system: SystemName,
    arguments: Arguments<'_>,
) -> Result<Effect, Stop>
    ensures { (os : List (Option Operand)) → as_taken arguments.entry ≡ taken_of os → Does scene.entry (last_value os) (λ s. assign_indexed s (Variable.System system) (as_taken arguments.entry)) result }
{
    match arguments {
        Arguments::ListAndOne(slots, b) => assign_slots(alloc, scene, system, slots, b),
        _ => Err(Stop::Fault(Fault::Syntax)),
    }
}
