//! Workspaces in files.
ghost use Rattle.std.specs.Prelude.{◌≡◌, [], IfOk, IsTrue};
ghost use Rattle.apl_machine_state.specs.State.{is_idle};

use crate::ended::Ended;
use apl_files::Held;
use apl_machine::Machine;
use apl_workspace::{SaveError, load, save};
use std::{fs, io};

/// The bytes of a file.
pub(crate) fn read_file(rt: &HostRuntime, path: &str) -> Result<Vec<u8>, Ended> {
    match fs::read(rt, path) {
        Ok(bytes) => Ok(bytes),
        Err(error) if error.kind() == io::ErrorKind::OutOfMemory => Err(Ended::Memory),
        Err(_) => Err(Ended::LoadFile),
    }
}

/// The workspace that a file holds.
pub(crate) fn load_file(rt: &HostRuntime, path: &str) -> Result<Machine, Ended>
    ensures idle { IfOk result (λ m. IsTrue (is_idle m)) }
    ensures quiet { IfOk result (λ m. m.output ≡ []) }
{
    let bytes = read_file(rt, path)?;
    Ok(load(rt.alloc(), &bytes)?)
}

/// Saves a workspace, in which nothing runs, in a file that this run holds.
pub(crate) fn save_file(rt: &HostRuntime, held: &Held, ws: &Machine) -> Result<(), Ended>
    requires { IsTrue (is_idle ws.now) }
{
    match save(rt.alloc(), ws) {
        Ok(bytes) => Ok(held.save(rt, &bytes)?),
        Err(SaveError::Memory) => Err(Ended::Memory),
        Err(SaveError::Running) => unreachable!(),
    }
}
