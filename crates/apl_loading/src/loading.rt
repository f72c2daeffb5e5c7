//! The parts of a workspace file.
ghost use Rattle.std.specs.Prelude.{◌≡◌, ◌≢◌, ◌<◌, IfOk, IfErr, MatchResult};
ghost use Rattle.apl_arrays.specs.Origins.{origin_number};
ghost use Rattle.apl_parts.specs.Restored.{AreWhole};
ghost use Rattle.apl_parts.specs.Workspaces.{Pieces};
ghost use Rattle.apl_saved.specs.Rules.{AreRuled};
ghost use Rattle.apl_saved.specs.Spelled.{IsFileOf};
ghost use Rattle.apl_workspace_file.specs.Fitting.{Fits};
ghost use Rattle.apl_loading.specs.inside.Held.{AreHeld};
ghost use Rattle.apl_loading.specs.Refusals.{IsRefused};
ghost use Rattle.apl_loading.specs.declared.error.LoadFault.TheVariants as fault;

use crate::contexts::read_contexts;
use crate::error::LoadFault;
use crate::functions::read_functions;
use crate::variables::read_variables;
use apl_arrays::Origin;
use apl_parts::Parts;
use apl_translate::Cache;
use apl_workspace_file::File;
use std::alloc::Global;

/// The index origin that a number of a file names.
fn read_origin(number: usize) -> Origin
    requires { number < 2 }
    ensures { origin_number result ≡ number }
{
    match Origin::of(number) {
        Some(origin) => origin,
        // A file of the right form has 0 or 1.
        None => unreachable!(),
    }
}

/// The parts that a file holds.
fn read_parts(alloc: Global, file: &File, cache: &mut Cache) -> Result<Parts, LoadFault>
    requires { Fits file.now }
    ensures held { IfOk result (λ p. AreHeld file.now p) }
    ensures refused { IfErr result (λ e. e ≢ fault.Memory → IsRefused file.now e) }
{
    let functions = read_functions(alloc, file.functions.as_slice())?;
    let variables = read_variables(alloc, functions.as_slice(), file.variables.as_slice())?;
    let contexts = read_contexts(alloc, file.contexts.as_slice(), cache)?;
    let origin = read_origin(file.origin);
    Ok(Parts::new(functions, variables, origin, contexts))
}

/// The parts of the workspace that a file of the right form holds. The error is that of the first
/// faulty one of the functions, the variables and the contexts, the oldest first, and in it of the
/// first rule that fails: Limit, Array, Definition, Context, Code. Memory: it has run out. The
/// translations of half-done lines go through this cache, and stay there for the machine of the parts.
pub fn parts_of(alloc: Global, file: &File, cache: &mut Cache) -> Result<Parts, LoadFault>
    requires { Fits file.now }
    // The file holds these parts, which keep to the rules, and a machine can be made of them.
    ensures held { IfOk result (λ p. IsFileOf file.now p) }
    ensures ruled { IfOk result (λ p. AreRuled p) }
    ensures whole { IfOk result (λ p. AreWhole p) }
    // A file is refused for the first rule that fails.
    ensures refused { IfErr result (λ e. e ≢ fault.Memory → IsRefused file.now e) }
    // A file that holds parts that keep to the rules is never refused, and holds no others.
    ensures complete { (p : Pieces) → IsFileOf file.now p → AreRuled p → MatchResult result (λ q. q ≡ p) (λ e. e ≡ fault.Memory) }
{
    read_parts(alloc, file, cache)
}
