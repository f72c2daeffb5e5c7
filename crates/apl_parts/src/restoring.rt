//! Puts a workspace together again.
ghost use Rattle.std.specs.Prelude.{◌≡◌, ◌∷◌, [], All, IfOk, OnOk, map};
ghost use Rattle.apl_arrays.specs.Origins.{origin_number};
ghost use Rattle.apl_names.specs.declared.binding.Binding.TheVariants.{Function};
ghost use Rattle.apl_names.specs.Maps.{first_map, with_global};
ghost use Rattle.apl_vectors.specs.Vectors.{with_vector};
ghost use Rattle.apl_contexts.specs.Contexts.{AreSound, dressed, under};
ghost use Rattle.apl_parts.specs.Making.{put_all, vectors_onto};
ghost use Rattle.apl_parts.specs.Restored.{AreFew, AreWhole, function_entry, state_of, variable_entry};

use crate::parts::{FunctionPart, Parts, Restored};
use crate::resuming::put_contexts;
use apl_arrays::Array;
use apl_contexts::Contexts;
use apl_names::Names;
use apl_symbols::Name;
use apl_translate::Cache;
use apl_vectors::Vectors;
use std::alloc::{AllocError, Global};

/// Gives global names values, the last first.
fn put_variables(names: &mut Names, mut variables: Vec<(Name, Array)>) -> Result<(), AllocError>
    requires { names.old ≡ first_map names.old ∷ [] }
    ensures { OnOk result (names.new ≡ put_all (map variable_entry variables.items) (first_map names.old) ∷ []) }
{
    while let Some(variable) = variables.pop() {
        let (name, array) = variable;
        names.assign(&name, array)?;
    }
    Ok(())
}

/// Makes a name a global function, with its vectors.
fn put_function(
    names: &mut Names,
    stops: &mut Vectors,
    traces: &mut Vectors,
    part: FunctionPart,
) -> Result<(), AllocError>
    requires { AreFew part }
    ensures names { OnOk result (names.new ≡ with_global part.definition.header.name (Function part.definition) names.old) }
    ensures stops { OnOk result (stops.new ≡ with_vector part.definition.header.name part.stops stops.old) }
    ensures traces { OnOk result (traces.new ≡ with_vector part.definition.header.name part.traces traces.old) }
{
    let FunctionPart {
        function,
        stops: stop_lines,
        traces: trace_lines,
    } = part;
    let name = function.definition().header().name;
    names.function(&name, function)?;
    stops.set(&name, stop_lines)?;
    traces.set(&name, trace_lines)?;
    Ok(())
}

/// Makes names global functions, with their vectors, the last first.
fn put_functions(
    names: &mut Names,
    stops: &mut Vectors,
    traces: &mut Vectors,
    mut functions: Vec<FunctionPart>,
) -> Result<(), AllocError>
    requires single { names.old ≡ first_map names.old ∷ [] }
    requires few { All AreFew functions.items }
    ensures names { OnOk result (names.new ≡ put_all (map function_entry functions.items) (first_map names.old) ∷ []) }
    ensures stops { OnOk result (stops.new ≡ vectors_onto (λ f. f.stops) functions.items stops.old) }
    ensures traces { OnOk result (traces.new ≡ vectors_onto (λ f. f.traces) functions.items traces.old) }
{
    while let Some(part) = functions.pop() {
        put_function(names, stops, traces, part)?;
    }
    Ok(())
}

/// Puts parts together. The translations of its lines go through this cache. The error is that memory has run out.
pub fn restored(alloc: Global, parts: Parts, cache: &mut Cache) -> Result<Restored, AllocError>
    requires { AreWhole parts }
    ensures sound { IfOk result (λ r. AreSound r.contexts r.names) }
    ensures globals { IfOk result (λ r. under r.names r.contexts ≡ (state_of parts).world.globals) }
    ensures traces { IfOk result (λ r. r.traces ≡ (state_of parts).world.traces) }
    ensures origin { IfOk result (λ r. origin_number r.origin ≡ parts.origin) }
    ensures stops { IfOk result (λ r. r.stops ≡ (state_of parts).stops) }
    ensures contexts { IfOk result (λ r. dressed r.names r.contexts ≡ (state_of parts).contexts) }
{
    let Parts {
        functions,
        variables,
        origin,
        contexts: waiting,
    } = parts;
    let mut names = Names::new(alloc);
    let mut stops = Vectors::new(alloc);
    let mut traces = Vectors::new(alloc);
    let mut contexts = Contexts::new(alloc);
    put_variables(&mut names, variables)?;
    put_functions(&mut names, &mut stops, &mut traces, functions)?;
    put_contexts(alloc, waiting, &mut names, &mut contexts, cache)?;
    Ok(Restored {
        names,
        stops,
        traces,
        origin,
        contexts,
    })
}
