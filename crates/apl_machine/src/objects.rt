//! The global objects of a workspace.
ghost use Rattle.std.specs.Prelude.{◌≡◌, OnErr, OnOk, option_copied};
ghost use Rattle.apl_defn.specs.Defining.{IsDefined};
ghost use Rattle.apl_machine_state.specs.Objects.{cleared, erased, without_global};
ghost use Rattle.apl_machine_state.specs.State.{is_variable, with_function};
ghost use Rattle.apl_names.specs.Maps.{function_in};
ghost use Rattle.apl_machine.specs.Spaces.{IsSound, state_of};

use crate::workspace::Workspace;
use apl_arrays::Origin;
use apl_contexts::Lines;
use apl_defn::Definition;
use apl_names::{Binding, DefinedFunction};
use apl_symbols::Name;
use std::alloc::AllocError;

/// Functions go, and so does what is cached of them: lines, and calls that are over. What stands goes on.
fn forget(workspace: &mut Workspace)
    ensures { workspace.new ≡ workspace.old }
{
    workspace.lines = Lines::new(workspace.alloc);
    workspace.contexts.trim();
}

/// Defines a function, instead of what its name stood for globally, with empty stop and trace
/// vectors. After an error nothing has changed.
pub(crate) fn define(workspace: &mut Workspace, definition: Definition) -> Result<(), AllocError>
    requires sound { IsSound workspace.old }
    ensures defined { IsDefined definition }
    ensures sound { IsSound workspace.new }
    ensures ok { OnOk result (state_of workspace.new ≡ with_function definition (state_of workspace.old)) }
    ensures err { OnErr result (workspace.new ≡ workspace.old) }
{
    let name = definition.header().name;
    let function = DefinedFunction::new(workspace.alloc, definition)?;
    workspace.names.function(&name, function)?;
    workspace.stops.remove(&name);
    workspace.traces.remove(&name);
    forget(workspace);
    Ok(())
}

/// The function that a binding is, if it is one.
pub(crate) fn function_in(binding: Option<&Binding>) -> Option<&Definition>
    ensures { option_copied result ≡ function_in (option_copied binding.entry) }
{
    match binding {
        Some(Binding::Function(function)) => Some(function.definition()),
        _ => None,
    }
}

/// Whether a binding is a variable.
pub(crate) fn is_variable(binding: Option<&Binding>) -> bool
    ensures { result ≡ is_variable (option_copied binding.entry) }
{
    match binding {
        Some(Binding::Value(_)) => true,
        _ => false,
    }
}

/// Erases the global object of a name, if there is one, with its stop and trace vectors.
fn erase_one(workspace: &mut Workspace, name: &Name)
    requires sound { IsSound workspace.old }
    ensures sound { IsSound workspace.new }
    ensures erased { state_of workspace.new ≡ without_global name.now (state_of workspace.old) }
{
    workspace.names.erase(name);
    workspace.stops.remove(name);
    workspace.traces.remove(name);
}

/// Erases the global objects of these names, one after another.
pub(crate) fn erase(workspace: &mut Workspace, names: &[Name])
    requires sound { IsSound workspace.old }
    ensures sound { IsSound workspace.new }
    ensures erased { state_of workspace.new ≡ erased names.now (state_of workspace.old) }
{
    for name in names {
        erase_one(workspace, name);
    }
    forget(workspace);
}

/// Makes it a clear workspace, with the output that is written.
pub(crate) fn clear(workspace: &mut Workspace)
    requires sound { IsSound workspace.old }
    ensures sound { IsSound workspace.new }
    ensures cleared { state_of workspace.new ≡ cleared (state_of workspace.old) }
{
    workspace.names.clear();
    workspace.stops.clear();
    workspace.traces.clear();
    workspace.io = Origin::One;
    workspace.contexts.clear();
    forget(workspace);
}
