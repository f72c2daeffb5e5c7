//! The names that a call begins with.
ghost use Rattle.std.specs.Prelude.{◌≡◌, ◌≤◌, ◌∷◌, ℤ, List, OnErr, OnOk, map, option_copied};
ghost use Rattle.apl_arrays.specs.Origins.{origin_number};
ghost use Rattle.apl_machine_state.specs.Calls.{bound_name, bound_to, local_of};
ghost use Rattle.apl_names.specs.Maps.{AreBeneath, map_of, with_local, with_locals};
ghost use Rattle.apl_names.specs.declared.binding.Binding.TheVariants.{Unset};
ghost use Rattle.apl_phrases.specs.Effects.{seen};
ghost use Rattle.apl_machine.specs.inside.Locals.{alone, names_with};

use apl_arrays::{Array, Origin};
use apl_defn::Definition;
use apl_names::{Binding, DefinedFunction, Names};
use apl_parts::bind_labels;
use apl_phrases::{Scene, origin_name};
use apl_symbols::Name;
use apl_translate::Cache;
use std::alloc::AllocError;

/// The index origin that a local `⎕IO` has at first, where it is among these locals: the caller's.
pub(crate) fn origin_for(scene: Scene<'_>, locals: &[Name]) -> Origin
    ensures { (lines : List ℤ) → map (local_of (seen scene.entry lines)) locals.now ≡ map (local_of (alone (origin_number result))) locals.now }
{
    if locals.is_empty() {
        return Origin::One;
    }
    if locals.contains(&origin_name()) {
        return scene.origin();
    }
    Origin::One
}

/// What a local stands for as a call begins: it is unset, but `⎕IO` has the caller's value.
fn local_of(origin: Origin, name: &Name) -> Binding
    ensures { (name.now, result) ≡ local_of (alone (origin_number origin)) name.now }
{
    if *name == origin_name() {
        Binding::Value(Array::number(origin.number() as i64))
    } else {
        Binding::Unset
    }
}

/// Makes a name, where there is one, stand in the newest scope for a copy of this value, or unset.
#[inline(always)]
fn bind_named(
    names: &mut Names,
    name: Option<&Name>,
    value: Option<&Array>,
) -> Result<(), AllocError>
    ensures ok { OnOk result (names.new ≡ with_locals (bound_name (option_copied name.entry) (bound_to (option_copied value.entry))) names.old) }
    ensures err { OnErr result (names.new ≡ names.old) }
{
    let Some(name) = name else {
        return Ok(());
    };
    match value {
        Some(value) => names.bind_value(name, value),
        None => bind_unset(names, name),
    }
}

/// Makes a name unset in the newest scope.
#[inline(always)]
fn bind_unset(names: &mut Names, name: &Name) -> Result<(), AllocError>
    ensures ok { OnOk result (names.new ≡ with_local name.now Unset names.old) }
    ensures err { OnErr result (names.new ≡ names.old) }
{
    names.bind(name, Binding::Unset)
}

/// Makes locals stand in the newest scope for what they stand for as a call begins. After an error some
/// of them do.
fn bind_locals(names: &mut Names, locals: &[Name], origin: Origin) -> Result<(), AllocError>
    ensures ok { OnOk result (names.new ≡ with_locals (map (local_of (alone (origin_number origin))) locals.now) names.old) }
    ensures beneath { AreBeneath names.old names.new }
{
    let mut left = locals;
    while let Some((local, prefix)) = left.split_last() {
        names.bind(local, local_of(origin, local))?;
        left = prefix;
    }
    Ok(())
}

/// Makes all names of a call stand in the newest scope for what they stand for as it begins, the last
/// first: of two of one name, the first stands. After an error some of them do.
fn bind_names(
    names: &mut Names,
    origin: Origin,
    definition: &Definition,
    left: Option<&Array>,
    right: Option<&Array>,
) -> Result<(), AllocError>
    ensures ok { OnOk result (names.new ≡ with_locals (names_with origin definition.now (option_copied left.entry) (option_copied right.entry)) names.old) }
    ensures beneath { AreBeneath names.old names.new }
{
    let header = definition.header();
    bind_labels(names, definition.labels())?;
    bind_locals(names, header.locals.as_slice(), origin)?;
    bind_named(names, header.right.as_ref(), right)?;
    bind_named(names, header.left.as_ref(), left)?;
    bind_named(names, header.result.as_ref(), None)
}

/// Binds the lines of a function, for the calls of it that come, where they aren't bound yet.
#[inline]
pub(crate) fn prepare(names: &mut Names, cache: &mut Cache, function: &DefinedFunction)
    ensures { names.new ≡ names.old }
{
    if !function.is_ready() {
        names.make_ready(cache, &function.definition().header().name);
    }
}

/// The newest scope is that of a call from now on, with its names. After an error nothing has changed.
pub(crate) fn open_scope(
    names: &mut Names,
    origin: Origin,
    definition: &Definition,
    left: Option<&Array>,
    right: Option<&Array>,
) -> Result<(), AllocError>
    ensures ok { OnOk result (names.new ≡ map_of (names_with origin definition.now (option_copied left.entry) (option_copied right.entry)) ∷ names.old) }
    ensures err { OnErr result (names.new ≡ names.old) }
{
    names.open()?;
    match bind_names(names, origin, definition, left, right) {
        Ok(()) => Ok(()),
        Err(AllocError) => {
            names.leave();
            Err(AllocError)
        }
    }
}
