//! Global functions.
ghost use Rattle.std.specs.Prelude.{◌≡◌, ◌≢◌, ◌↔◌, IsTrue, IfOk, IfErr, None};
ghost use Rattle.apl_order.specs.Kept.{AreLines};
ghost use Rattle.apl_loading.specs.Numbers.{Refuses};
ghost use Rattle.apl_loading.specs.Refusals.{AreFunctions, IsBehind, IsNextFunction, IsRefusedIn, RefusesFunction, TakesFunction, function_after};
ghost use Rattle.apl_loading.specs.declared.error.LoadFault.TheVariants as fault;

use crate::definitions::read_definition;
use crate::error::LoadFault;
use apl_defn::Definition;
use apl_names::DefinedFunction;
use apl_parts::FunctionPart;
use apl_symbols::Name;
use apl_workspace_file::FunctionField;
use std::alloc::Global;

/// Whether these are numbers of lines of a function, ascending.
fn are_lines(definition: &Definition, lines: &[usize]) -> bool
    ensures { IsTrue result ↔ AreLines definition.now lines.now }
{
    let count = definition.len();
    let mut above = 0;
    for line in lines {
        if *line <= above || *line > count {
            return false;
        }
        above = *line;
    }
    true
}

/// Whether a name comes behind the one before it, if there is one.
pub(crate) fn is_behind(before: Option<Name>, name: Name) -> bool
    ensures { IsTrue result ↔ IsBehind before name }
{
    match before {
        None => true,
        Some(before) => before.cmp(&name).is_lt(),
    }
}

/// Whether a function comes behind that of a name, and its vectors are numbers of its lines, ascending.
fn is_next(before: Option<Name>, definition: &Definition, field: &FunctionField) -> bool
    ensures { IsTrue result ↔ (IsBehind before definition.now.header.name × AreLines definition.now field.now.stop × AreLines definition.now field.now.trace) }
{
    is_behind(before, definition.header().name)
        && are_lines(definition, field.stop.as_slice())
        && are_lines(definition, field.trace.as_slice())
}

/// The next function, behind that of this name.
fn read_function(
    alloc: Global,
    before: Option<Name>,
    field: &FunctionField,
) -> Result<FunctionPart, LoadFault>
    ensures found { IfOk result (λ w. IsNextFunction before field.now w) }
    ensures refused { IfErr result (Refuses fault.Definition (λ w. IsNextFunction before field.now w)) }
{
    let definition = read_definition(alloc, &field.header, field.lines.as_slice())?;
    if !is_next(before, &definition, field) {
        return Err(LoadFault::Definition);
    }
    let stops = Vec::from_slice(alloc, field.stop.as_slice())?;
    let traces = Vec::from_slice(alloc, field.trace.as_slice())?;
    let function = DefinedFunction::new(alloc, definition)?;
    Ok(FunctionPart::new(function, stops, traces))
}

/// The functions, in their order.
pub(crate) fn read_functions(
    alloc: Global,
    fields: &[FunctionField],
) -> Result<Vec<FunctionPart>, LoadFault>
    ensures found { IfOk result (λ v. AreFunctions fields.now v.items) }
    ensures refused { IfErr result (λ e. e ≢ fault.Memory → IsRefusedIn TakesFunction RefusesFunction function_after None fields.now e) }
{
    let mut before = None;
    let mut functions = Vec::with_capacity(alloc, fields.len())?;
    for field in fields {
        let function = read_function(alloc, before, field)?;
        before = Some(function.function().definition().header().name);
        functions.push(function)?;
    }
    Ok(functions)
}
