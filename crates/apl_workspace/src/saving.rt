//! Saves a workspace.
ghost use Rattle.std.specs.Prelude.{◌≡◌, ◌↔◌, IfOk, IsErrOf, IsFalse};
ghost use Rattle.apl_machine_state.specs.State.{is_idle};
ghost use Rattle.apl_savable.specs.Reached.{IsReached};
ghost use Rattle.apl_savable.specs.Savable.{IsSavable};
ghost use Rattle.apl_workspace.specs.Saved.{IsLoaded, IsSavedAs, settled};
ghost use Rattle.apl_workspace.specs.declared.error.SaveError.TheVariants as error;

use crate::error::SaveError;
use apl_machine::Machine;
use apl_saving::{file_of, kept_parts_are_readable};
use apl_workspace_file::write;
use std::alloc::Global;

/// The workspace of an idle machine as a file: its functions, variables, index origin and half-done
/// statements. What the machine has written and nobody has taken isn't kept. Running exactly where
/// the machine runs; Memory: it has run out.
pub fn save(alloc: Global, machine: &Machine) -> Result<Vec<u8>, SaveError>
    ensures running { IsErrOf result error.Running ↔ IsFalse (is_idle machine.now) }
    ensures saved { IfOk result (λ b. IsSavedAs b.items machine.now) }
    // What is loaded of it is the same state, for each that a file can hold, and so for each that a machine comes to.
    ensures again { IsSavable machine.now → IfOk result (λ b. IsLoaded b.items (settled machine.now)) }
    ensures reached { IsReached machine.now → IfOk result (λ b. IsLoaded b.items (settled machine.now)) }
{
    if !machine.is_idle() {
        return Err(SaveError::Running);
    }
    let parts = machine.parts()?;
    kept_parts_are_readable();
    let file = file_of(alloc, &parts)?;
    Ok(write(alloc, &file)?)
}
