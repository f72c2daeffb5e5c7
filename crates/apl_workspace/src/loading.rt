//! Loads a workspace.
ghost use Rattle.std.specs.Prelude.{◌≡◌, [], IfErr, IfOk, IsTrue, MatchResult};
ghost use Rattle.apl_machine_state.specs.State.{State, is_idle};
ghost use Rattle.apl_workspace.specs.Refusals.{IsUnloaded};
ghost use Rattle.apl_workspace.specs.Saved.{IsLoaded};
ghost use Rattle.apl_workspace.specs.declared.error.LoadError.TheVariants as refusal;

use crate::error::LoadError;
use apl_loading::parts_of;
use apl_machine::Machine;
use apl_translate::Cache;
use apl_workspace_file::read;
use std::alloc::Global;

/// The machine of a workspace file, idle and without output. Errors, the first of these: NotJson and
/// Form, asked of the whole file; then, part by part, functions, variables and contexts in their
/// order, in each of them Limit, Array, Definition, Context, Code. Memory: it has run out.
pub fn load(alloc: Global, bytes: &[u8]) -> Result<Machine, LoadError>
    ensures loaded { IfOk result (λ m. IsLoaded bytes.now m) }
    ensures idle { IfOk result (λ m. IsTrue (is_idle m)) }
    ensures quiet { IfOk result (λ m. m.output ≡ []) }
    ensures refused { IfErr result (λ e. IsUnloaded bytes.now e) }
    // Bytes that stand for a state are never refused, and stand for no other.
    ensures complete { (s : State) → IsLoaded bytes.now s → MatchResult result (λ m. m ≡ s) (λ e. e ≡ refusal.Memory) }
{
    let file = read(alloc, bytes)?;
    // what the lines are checked against is what the machine runs
    let mut cache = Cache::new(alloc);
    let parts = parts_of(alloc, &file, &mut cache)?;
    Ok(Machine::from_parts_with(alloc, parts, cache)?)
}
