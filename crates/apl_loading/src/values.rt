//! The arrays of a context.
ghost use Rattle.std.specs.Prelude.{◌≡◌, ◌≢◌, ◌↔◌, ◌≤◌, IsTrue, IfOk, IfErr, List, Option};
ghost use Rattle.std.specs.List.{AllByRecursion};
ghost use Rattle.apl_arrays.specs.Cells.{Arr};
ghost use Rattle.apl_machine_state.specs.declared.operand.Operand.{Operand as AnOperand};
ghost use Rattle.apl_loading.specs.Refusals.{AreSmall, AreValues, IsSmallLocal, counts, locals_in, operands_in, operands_of};
ghost use Rattle.apl_loading.specs.Small.{IsSmallOperand};
ghost use Rattle.apl_loading.specs.declared.error.LoadFault.TheVariants as fault;

use crate::error::LoadFault;
use crate::field::{are_small, read_all};
use apl_arrays::Array;
use apl_machine_state::Operand;
use apl_workspace_file::{ContextField, LocalField, OperandField, RestField};
use std::alloc::Global;

/// The most calls and executes that stand.
pub(crate) const MOST_STANDING: usize = 256;

/// The values of the locals of a context, and its operands.
#[derive(Drop)]
pub(crate) struct Values {
    pub(crate) locals: Vec<Option<Array>>,
    pub(crate) operands: Vec<Operand>,
}

fn locals_in(field: &ContextField) -> &[LocalField]
    ensures { result.now ≡ locals_in field.now }
{
    match field {
        ContextField::Call(call) => call.locals.as_slice(),
        ContextField::Statement(_) | ContextField::Execute(_) => &[],
    }
}

fn operands_of(rest: &Option<RestField>) -> &[OperandField]
    ensures { result.now ≡ operands_of rest.now }
{
    match rest {
        Some(rest) => rest.operands.as_slice(),
        None => &[],
    }
}

fn operands_in(field: &ContextField) -> &[OperandField]
    ensures { result.now ≡ operands_in field.now }
{
    match field {
        ContextField::Statement(statement) => statement.rest.operands.as_slice(),
        ContextField::Call(call) => operands_of(&call.rest),
        ContextField::Execute(execute) => execute.rest.operands.as_slice(),
    }
}

/// How many calls and executes it is.
pub(crate) fn counts(field: &ContextField) -> usize
    ensures value { result ≡ counts field.now }
    ensures few { result ≤ 1 }
{
    match field {
        ContextField::Statement(_) => 0,
        ContextField::Call(_) | ContextField::Execute(_) => 1,
    }
}

/// Whether the arrays of a context are within the limits, and it is at most the 256th call or execute.
pub(crate) fn is_within_limits(standing: usize, field: &ContextField) -> bool
    requires { standing ≤ MOST_STANDING }
    ensures { IsTrue result ↔ AreSmall standing field.now }
{
    are_small(locals_in(field))
        && are_small(operands_in(field))
        && standing + counts(field) <= MOST_STANDING
}

/// The values of the locals of a context, and its operands.
pub(crate) fn read_values(alloc: Global, field: &ContextField) -> Result<Values, LoadFault>
    requires locals { AllByRecursion IsSmallLocal (locals_in field.now) }
    requires operands { AllByRecursion IsSmallOperand (operands_in field.now) }
    ensures found { IfOk result (λ v. AreValues field.now v.locals.items v.operands.items) }
    ensures refused { IfErr result (λ e. e ≢ fault.Memory →
        (e ≡ fault.Array) × ((values : List (Option Arr)) (operands : List AnOperand) → ¬ AreValues field.now values operands)) }
{
    let locals = read_all(alloc, locals_in(field))?;
    let operands = read_all(alloc, operands_in(field))?;
    Ok(Values { locals, operands })
}
