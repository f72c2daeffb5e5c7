//! Contexts.
ghost use Rattle.std.specs.Prelude.{◌≡◌, ◌≢◌, ◌↔◌, ◌+◌, ◌≤◌, IsTrue, IfOk, IfErr, length};
ghost use Rattle.apl_defn.specs.Definitions.{line_of};
ghost use Rattle.apl_parts.specs.Restored.{waiting_in};
ghost use Rattle.apl_saved.specs.Rules.{counted, text_of};
ghost use Rattle.apl_saved.specs.Spelled.{IsOperandOf, Pairwise};
ghost use Rattle.apl_loading.specs.inside.Made.{IsBelow, IsBuilt, IsCallBy, IsListed, IsMadeIn, RefusesPart};
ghost use Rattle.apl_workspace_file.specs.declared.fields.ContextField.TheVariants as fields;
ghost use Rattle.apl_loading.specs.Numbers.{Refuses};
ghost use Rattle.apl_loading.specs.Refusals.{AreStacked, AreValues, Below, IsRefusedIn, RefusesContext, TakesContext, context_after, counts, nothing_below};
ghost use Rattle.apl_loading.specs.declared.error.LoadFault.TheVariants as fault;

use crate::built::Built;
use crate::definitions::read_definition;
use crate::error::LoadFault;
use crate::links::may_stand;
use crate::locals::read_locals;
use crate::pendent::{read_call_line, read_statement};
use crate::values::{MOST_STANDING, Values, counts, is_within_limits, read_values};
use apl_code::Action;
use apl_defn::Definition;
use apl_machine_state::Operand;
use apl_names::DefinedFunction;
use apl_parts::{CallPart, ContextPart};
use apl_translate::Cache;
use apl_workspace_file::{CallField, ContextField, RestField, StatementField};
use std::alloc::Global;

/// A call of this definition, but for the listing of its line.
fn read_call(
    alloc: Global,
    definition: Definition,
    field: &CallField,
    values: Values,
    cache: &mut Cache,
) -> Result<Built<CallPart, Option<Action>>, LoadFault>
    requires { length field.now.locals ≡ length values.locals.items }
    ensures found { IfOk result (λ b. IsCallBy definition field.now values.locals.items values.operands.items b.part) }
    ensures made { IfOk result (λ b. IsMadeIn (line_of definition field.now.at) b.part.rest b.awaits b.listing.items) }
    ensures refused { IfErr result (Refuses fault.Context (λ c. IsCallBy definition field.now values.locals.items values.operands.items c)) }
{
    let Values { locals, operands } = values;
    let Some(tokens) = definition.tokens(alloc, field.at)? else {
        return Err(LoadFault::Context);
    };
    let line = read_call_line(alloc, tokens.as_slice(), &field.rest, operands, cache)?;
    let fields = field.locals.as_slice();
    let locals = read_locals(alloc, definition.header(), fields, locals)?;
    let function = DefinedFunction::new(alloc, definition)?;
    Ok(Built {
        part: CallPart::new(function, field.at, locals, line.part),
        awaits: line.awaits,
        listing: line.listing,
    })
}

/// A call, but for the listing of its line.
fn build_call(
    alloc: Global,
    field: &CallField,
    values: Values,
    cache: &mut Cache,
) -> Result<Built<ContextPart, Option<Action>>, LoadFault>
    requires { AreValues (fields.Call field.now) values.locals.items values.operands.items }
    ensures found { IfOk result (λ b. IsBuilt (fields.Call field.now) b.part b.awaits b.listing.items) }
    ensures refused { IfErr result (λ e. e ≢ fault.Memory → RefusesPart (fields.Call field.now) e) }
{
    let definition = read_definition(alloc, &field.header, field.lines.as_slice())?;
    let call = read_call(alloc, definition, field, values, cache)?;
    Ok(Built {
        part: ContextPart::Call(call.part),
        awaits: call.awaits,
        listing: call.listing,
    })
}

/// A typed statement, but for the listing of its line.
fn build_statement(
    alloc: Global,
    field: &StatementField,
    operands: Vec<Operand>,
    cache: &mut Cache,
) -> Result<Built<ContextPart, Option<Action>>, LoadFault>
    requires { Pairwise IsOperandOf field.now.rest.operands operands.items }
    ensures found { IfOk result (λ b. IsBuilt (fields.Statement field.now) b.part b.awaits b.listing.items) }
    ensures refused { IfErr result (λ e. e ≢ fault.Memory → RefusesPart (fields.Statement field.now) e) }
{
    let statement = read_statement(alloc, field, operands, cache)?;
    Ok(Built {
        part: ContextPart::Statement(statement.part),
        awaits: Some(statement.awaits),
        listing: statement.listing,
    })
}

/// A text that is executed, but for the listing of its line.
fn build_execute(
    alloc: Global,
    field: &StatementField,
    operands: Vec<Operand>,
    cache: &mut Cache,
) -> Result<Built<ContextPart, Option<Action>>, LoadFault>
    requires { Pairwise IsOperandOf field.now.rest.operands operands.items }
    ensures found { IfOk result (λ b. IsBuilt (fields.Execute field.now) b.part b.awaits b.listing.items) }
    ensures refused { IfErr result (λ e. e ≢ fault.Memory → RefusesPart (fields.Execute field.now) e) }
{
    let execute = read_statement(alloc, field, operands, cache)?;
    Ok(Built {
        part: ContextPart::Execute(execute.part),
        awaits: Some(execute.awaits),
        listing: execute.listing,
    })
}

/// A context, but for the listing of its line.
fn build(
    alloc: Global,
    field: &ContextField,
    values: Values,
    cache: &mut Cache,
) -> Result<Built<ContextPart, Option<Action>>, LoadFault>
    requires { AreValues field.now values.locals.items values.operands.items }
    ensures found { IfOk result (λ b. IsBuilt field.now b.part b.awaits b.listing.items) }
    ensures refused { IfErr result (λ e. e ≢ fault.Memory → RefusesPart field.now e) }
{
    match field {
        ContextField::Statement(statement) => build_statement(
            alloc,
            statement,
            values.operands,
            cache,
        ),
        ContextField::Call(call) => build_call(alloc, call, values, cache),
        ContextField::Execute(execute) => build_execute(alloc, execute, values.operands, cache),
    }
}

/// Whether the listing of a line is this one.
fn is_listed(rest: &RestField, listing: &[u8]) -> bool
    ensures { IsTrue result ↔ (rest.now.code ≡ listing.now) }
{
    rest.code.as_str().as_bytes() == listing
}

/// Whether the listing of a context's line is this one, where it awaits an answer.
fn has_listing(field: &ContextField, listing: &[u8]) -> bool
    ensures { IsTrue result ↔ IsListed field.now listing.now }
{
    match field {
        ContextField::Statement(statement) => is_listed(&statement.rest, listing),
        ContextField::Call(call) => match &call.rest {
            Some(rest) => is_listed(rest, listing),
            None => true,
        },
        ContextField::Execute(execute) => is_listed(&execute.rest, listing),
    }
}

/// The next context, above one that awaits this, with so many calls and executes beneath, and with
/// these contexts behind it.
fn read_context(
    alloc: Global,
    awaits: Option<Action>,
    standing: usize,
    behind: &[ContextField],
    field: &ContextField,
    cache: &mut Cache,
) -> Result<Built<ContextPart, Option<Action>>, LoadFault>
    requires { standing ≤ MOST_STANDING }
    ensures found { (s : Below) → IsBelow awaits standing s → IfOk result (λ b. TakesContext s behind.now field.now b.part) }
    ensures made { IfOk result (λ b. IsMadeIn (text_of b.part) (waiting_in b.part) b.awaits b.listing.items) }
    ensures counted { IfOk result (λ b. counted b.part ≡ counts field.now) }
    ensures few { IfOk result (λ b. standing + counts field.now ≤ MOST_STANDING) }
    ensures refused { (s : Below) → IsBelow awaits standing s → IfErr result (λ e. e ≢ fault.Memory → RefusesContext s behind.now field.now e) }
{
    if !is_within_limits(standing, field) {
        return Err(LoadFault::Limit);
    }
    let values = read_values(alloc, field)?;
    let built = build(alloc, field, values, cache)?;
    if !may_stand(awaits, behind, &built.part) {
        return Err(LoadFault::Context);
    }
    if !has_listing(field, built.listing.as_slice()) {
        return Err(LoadFault::Code);
    }
    Ok(built)
}

/// The contexts, the oldest first. The translations of their lines go through this cache.
pub(crate) fn read_contexts(
    alloc: Global,
    fields: &[ContextField],
    cache: &mut Cache,
) -> Result<Vec<ContextPart>, LoadFault>
    ensures found { IfOk result (λ v. AreStacked fields.now v.items) }
    ensures refused { IfErr result (λ e. e ≢ fault.Memory → IsRefusedIn TakesContext RefusesContext context_after nothing_below fields.now e) }
{
    let mut awaits = None;
    let mut standing = 0;
    let mut contexts = Vec::with_capacity(alloc, fields.len())?;
    for (i, field) in fields.iter().enumerate() {
        let behind = fields.split_at(i + 1).1;
        let built = read_context(alloc, awaits, standing, behind, field, cache)?;
        awaits = built.awaits;
        standing += counts(field);
        contexts.push(built.part)?;
    }
    Ok(contexts)
}
