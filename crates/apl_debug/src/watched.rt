//! The stop and trace vectors of functions.
ghost use Rattle.std.specs.Prelude.{◌≡◌, option_copied, option_map};
ghost use Rattle.apl_machine_state.specs.Objects.{vectors_of};

use apl_machine::Machine;
use apl_symbols::Name;

/// The lines of a global function that a run stops before, ascending. There are none where the name
/// is not that of a global function.
pub fn stops<'a>(machine: &'a Machine, name: &Name) -> Option<&'a [usize]>
    ensures { option_copied result ≡ option_map (λ v. v.0) (vectors_of machine.now name.now) }
{
    match machine.vectors(name) {
        Some((stops, _)) => Some(stops),
        None => None,
    }
}

/// The lines of a global function that write what they came to, ascending. There are none where the
/// name is not that of a global function.
pub fn traces<'a>(machine: &'a Machine, name: &Name) -> Option<&'a [usize]>
    ensures { option_copied result ≡ option_map (λ v. v.1) (vectors_of machine.now name.now) }
{
    match machine.vectors(name) {
        Some((_, traces)) => Some(traces),
        None => None,
    }
}
