//! The standing calls, with their lines and their locals.
ghost use Rattle.std.specs.Prelude.{◌≡◌, ◌++◌, ◌∷◌, [], IfOk, OnOk, drop, map};
ghost use Rattle.apl_machine_state.specs.Environment.{environment};
ghost use Rattle.apl_names.specs.Maps.{first_map};
ghost use Rattle.apl_order.specs.Kept.{given_name};
ghost use Rattle.apl_machine.specs.Standing.{seen};
ghost use Rattle.apl_kept.specs.Indicator.{indicator, local_in, locals_of};
ghost use Rattle.apl_kept.specs.inside.Calls.{map_at, standing_call};

use crate::names::{Named, value_reading};
use apl_charset::Text;
use apl_defn::Definition;
use apl_machine::{Machine, Standing};
use apl_symbols::Name;
use std::alloc::{AllocError, Global};
use std::marker::Model;

/// The names of a call, with what is read under each. Contracts see their list.
#[derive(Drop, Debug)]
pub struct Locals {
    names: Vec<Named>,
}

impl Model for Locals {
    ghost use Rattle.std.specs.Prelude.{List};
    ghost use Rattle.apl_kept.specs.declared.names.Named.{Named};

    ghost Value = { List Named };

    ghost view = { λ l. l.names.items };
}

impl Locals {
    /// The names, in the order of the header, and behind them the labels.
    pub fn as_slice(&self) -> &[Named]
        ensures { result.now ≡ self.now }
    {
        self.names.as_slice()
    }
}

/// A standing call.
#[derive(Drop, Debug)]
pub struct StandingCall {
    /// The name of its function.
    pub name: Name,
    /// The number of its line, from 1.
    pub line: usize,
    /// The text of its line.
    pub text: Text,
    /// The column, from 1, of the call or `⍎` whose answer its line awaits, if it awaits one.
    pub column: Option<usize>,
    /// Whether it is suspended before its line.
    pub suspended: bool,
    /// Its result, arguments, locals and labels, with what they stand for in this call.
    pub locals: Locals,
}

/// Adds a name with what the k-th newest scope gives it.
fn push_local(
    alloc: Global,
    locals: &mut Vec<Named>,
    machine: &Machine,
    k: usize,
    name: &Name,
) -> Result<(), AllocError>
    ensures { OnOk result (locals.new.items ≡ locals.old.items ++ local_in (map_at machine.now k) name.now ∷ []) }
{
    let reading = value_reading(alloc, machine.value_in(k, name))?;
    locals.push(Named {
        name: *name,
        reading,
    })?;
    Ok(())
}

/// Adds a name, where there is one.
fn push_given(
    alloc: Global,
    locals: &mut Vec<Named>,
    machine: &Machine,
    k: usize,
    name: Option<Name>,
) -> Result<(), AllocError>
    ensures { OnOk result (locals.new.items ≡ locals.old.items ++ map (local_in (map_at machine.now k)) (given_name name)) }
{
    if let Some(name) = name {
        push_local(alloc, locals, machine, k, &name)?;
    }
    Ok(())
}

/// Adds names.
fn push_names(
    alloc: Global,
    locals: &mut Vec<Named>,
    machine: &Machine,
    k: usize,
    names: &[Name],
) -> Result<(), AllocError>
    ensures { OnOk result (locals.new.items ≡ locals.old.items ++ map (local_in (map_at machine.now k)) names.now) }
{
    for name in names {
        push_local(alloc, locals, machine, k, name)?;
    }
    Ok(())
}

/// Adds labels.
fn push_labels(
    alloc: Global,
    locals: &mut Vec<Named>,
    machine: &Machine,
    k: usize,
    labels: &[(Name, usize)],
) -> Result<(), AllocError>
    ensures { OnOk result (locals.new.items ≡ locals.old.items ++ map (λ l. local_in (map_at machine.now k) l.0) labels.now) }
{
    for (name, _) in labels {
        push_local(alloc, locals, machine, k, name)?;
    }
    Ok(())
}

/// The names of a function, with what the k-th newest scope gives them.
fn locals_in(
    alloc: Global,
    machine: &Machine,
    k: usize,
    definition: &Definition,
) -> Result<Locals, AllocError>
    ensures { IfOk result (λ l. l ≡ locals_of definition.now (map_at machine.now k)) }
{
    let header = definition.header();
    let mut names = Vec::new(alloc);
    push_given(alloc, &mut names, machine, k, header.result)?;
    push_given(alloc, &mut names, machine, k, header.left)?;
    push_given(alloc, &mut names, machine, k, header.right)?;
    push_names(alloc, &mut names, machine, k, header.locals.as_slice())?;
    push_labels(alloc, &mut names, machine, k, definition.labels())?;
    Ok(Locals { names })
}

/// A call, whose names are those of the k-th newest scope.
fn standing_call(
    alloc: Global,
    machine: &Machine,
    k: usize,
    call: Standing<'_>,
) -> Result<StandingCall, AllocError>
    ensures { IfOk result (λ c. c ≡ standing_call (seen call.entry) (map_at machine.now k)) }
{
    let text = Text::new(Vec::from_slice(alloc, call.text)?);
    let locals = locals_in(alloc, machine, k, call.definition)?;
    Ok(StandingCall {
        name: call.definition.header().name,
        line: call.line,
        text,
        column: call.hole,
        suspended: call.suspended,
        locals,
    })
}

/// The standing calls, the newest first.
pub(crate) fn indicator(alloc: Global, machine: &Machine) -> Result<Vec<StandingCall>, AllocError>
    ensures { IfOk result (λ calls. calls.items ≡ indicator machine.now.contexts) }
{
    let mut calls = Vec::new(alloc);
    while let Some(call) = machine.call(calls.len()) {
        calls.push(standing_call(alloc, machine, calls.len(), call)?)?;
    }
    Ok(calls)
}
