//! Takes a workspace apart.
ghost use Rattle.apl_arrays.specs.Origins.{origin_number};
ghost use Rattle.std.specs.Prelude.{◌≡◌, ◌++◌, IfOk, OnOk, length, suc};
ghost use Rattle.std.specs.List.{flat_map};
ghost use Rattle.apl_names.specs.Maps.{last_map, said};
ghost use Rattle.apl_contexts.specs.Contexts.{calls};
ghost use Rattle.apl_parts.specs.Making.{function_at, state_with, variable_at};
ghost use Rattle.apl_parts.specs.Taken.{parts_of};

use crate::parts::{FunctionPart, Parts};
use crate::standing::contexts_of;
use apl_arrays::{Array, Origin};
use apl_contexts::Contexts;
use apl_names::{Binding, Names};
use apl_symbols::Name;
use apl_vectors::Vectors;
use std::alloc::{AllocError, Global};

/// Adds the global function of a name with its vectors, if there is one.
fn push_function(
    alloc: Global,
    functions: &mut Vec<FunctionPart>,
    names: &Names,
    stops: &Vectors,
    traces: &Vectors,
    name: &Name,
) -> Result<(), AllocError>
    ensures { OnOk result (functions.new.items ≡ functions.old.items ++ function_at stops.now traces.now name.now (said (last_map names.now) name.now)) }
{
    if let Some(Binding::Function(function)) = names.global(name) {
        let stop_lines = Vec::from_slice(alloc, stops.get(name))?;
        let trace_lines = Vec::from_slice(alloc, traces.get(name))?;
        functions.push(FunctionPart::new(function.share()?, stop_lines, trace_lines))?;
    }
    Ok(())
}

/// The global functions among these names with their vectors.
fn functions_of(
    alloc: Global,
    names: &Names,
    stops: &Vectors,
    traces: &Vectors,
    globals: &[(Name, bool)],
) -> Result<Vec<FunctionPart>, AllocError>
    ensures { IfOk result (λ v. v.items ≡ flat_map (λ k. function_at stops.now traces.now k.0 (said (last_map names.now) k.0)) globals.now) }
{
    let mut functions = Vec::new(alloc);
    for (name, _) in globals {
        push_function(alloc, &mut functions, names, stops, traces, name)?;
    }
    Ok(functions)
}

/// Adds the global variable of a name, if there is one.
fn push_variable(
    variables: &mut Vec<(Name, Array)>,
    names: &Names,
    name: &Name,
) -> Result<(), AllocError>
    ensures { OnOk result (variables.new.items ≡ variables.old.items ++ variable_at name.now (said (last_map names.now) name.now)) }
{
    if let Some(Binding::Value(array)) = names.global(name) {
        variables.push((*name, array.copy()?))?;
    }
    Ok(())
}

/// The global variables among these names.
fn variables_of(
    alloc: Global,
    names: &Names,
    globals: &[(Name, bool)],
) -> Result<Vec<(Name, Array)>, AllocError>
    ensures { IfOk result (λ v. v.items ≡ flat_map (λ k. variable_at k.0 (said (last_map names.now) k.0)) globals.now) }
{
    let mut variables = Vec::new(alloc);
    for (name, _) in globals {
        push_variable(&mut variables, names, name)?;
    }
    Ok(variables)
}

/// A workspace in parts. Where memory runs out there is none.
pub fn taken(
    alloc: Global,
    names: &Names,
    stops: &Vectors,
    traces: &Vectors,
    origin: Origin,
    contexts: &Contexts,
) -> Result<Parts, AllocError>
    requires { length names.now ≡ suc (calls contexts.now) }
    ensures { IfOk result (λ p. p ≡ parts_of (state_with names.now stops.now traces.now (origin_number origin) contexts.now)) }
{
    let globals = names.globals()?;
    let functions = functions_of(alloc, names, stops, traces, globals.as_slice())?;
    let variables = variables_of(alloc, names, globals.as_slice())?;
    let contexts = contexts_of(alloc, names, contexts)?;
    Ok(Parts::new(functions, variables, origin, contexts))
}
