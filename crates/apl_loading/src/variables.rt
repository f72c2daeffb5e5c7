//! Global variables.
ghost use Rattle.std.specs.Prelude.{◌≢◌, ◌↔◌, [], IsTrue, IfOk, IfErr, None, Contains};
ghost use Rattle.apl_saved.specs.Rules.{Ascend, function_names};
ghost use Rattle.apl_loading.specs.Refusals.{AreVariables, IsNextVariable, IsRefusedIn, RefusesVariable, TakesVariable, variable_after};
ghost use Rattle.apl_loading.specs.declared.error.LoadFault.TheVariants as fault;

use crate::error::LoadFault;
use crate::field::Field;
use crate::functions::is_behind;
use crate::names::read_name;
use apl_arrays::Array;
use apl_parts::FunctionPart;
use apl_symbols::Name;
use apl_workspace_file::VariableField;
use std::alloc::Global;

/// Whether one of the functions, which ascend by name, has this name.
fn has_name(functions: &[FunctionPart], name: &Name) -> bool
    requires { Ascend (function_names functions.now) }
    ensures { IsTrue result ↔ Contains (function_names functions.now) name.now }
{
    functions
        .binary_search_by_key(
            name,
            |function| function.function().definition().header().name,
        )
        .is_ok()
}

/// The next variable, behind that of this name, and named as none of the functions, which ascend by
/// name.
fn read_variable(
    alloc: Global,
    functions: &[FunctionPart],
    before: Option<Name>,
    field: &VariableField,
) -> Result<(Name, Array), LoadFault>
    requires { Ascend (function_names functions.now) }
    ensures found { IfOk result (λ v. IsNextVariable (function_names functions.now) before field.now v) }
    ensures refused { IfErr result (λ e. e ≢ fault.Memory → RefusesVariable (function_names functions.now) before [] field.now e) }
{
    if !field.value.is_small() {
        return Err(LoadFault::Limit);
    }
    let value = field.value.read(alloc)?;
    let name = read_name(alloc, &field.name)?;
    if !is_behind(before, name) || has_name(functions, &name) {
        return Err(LoadFault::Definition);
    }
    Ok((name, value))
}

/// The variables, in their order, beside these functions, which are in theirs.
pub(crate) fn read_variables(
    alloc: Global,
    functions: &[FunctionPart],
    fields: &[VariableField],
) -> Result<Vec<(Name, Array)>, LoadFault>
    requires { Ascend (function_names functions.now) }
    ensures found { IfOk result (λ v. AreVariables (function_names functions.now) fields.now v.items) }
    ensures refused { IfErr result (λ e. e ≢ fault.Memory →
        IsRefusedIn (TakesVariable (function_names functions.now)) (RefusesVariable (function_names functions.now)) variable_after None fields.now e) }
{
    let mut before = None;
    let mut variables = Vec::with_capacity(alloc, fields.len())?;
    for field in fields {
        let variable = read_variable(alloc, functions, before, field)?;
        before = Some(variable.0);
        variables.push(variable)?;
    }
    Ok(variables)
}
