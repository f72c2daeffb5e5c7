//! The state indicator.
ghost use Rattle.std.specs.Prelude.{◌≡◌, IfOk};
ghost use Rattle.apl_machine_state.specs.Objects.{levels};

use apl_machine::{Level, Machine};
use std::alloc::AllocError;

/// The standing calls, newest first: each by its function's name, the number of its line, and
/// whether it is suspended before that line.
pub fn state_indicator(machine: &Machine) -> Result<Vec<Level>, AllocError>
    ensures { IfOk result (λ found. found.items ≡ levels machine.now.contexts) }
{
    machine.levels()
}
