//! Contexts as they stand, in parts.
ghost use Rattle.std.specs.Prelude.{◌≡◌, ◌++◌, ◌∷◌, ◌<◌, [], IfOk, OnOk, drop, map, option_map, option_to_list, reverse};
ghost use Rattle.apl_frames.specs.Flat.{flat_rest};
ghost use Rattle.apl_contexts.specs.Contexts.{dressed};
ghost use Rattle.apl_names.specs.Maps.{first_map, said, value_in};
ghost use Rattle.apl_order.specs.Kept.{given_name, names_in};
ghost use Rattle.apl_parts.specs.Making.{dress, scope_beneath};
ghost use Rattle.apl_parts.specs.Taken.{class_in, classes_of, part_of, values_in, waiting_of};

use crate::parts::{CallPart, ContextPart, RestPart, StatementPart};
use apl_arrays::Array;
use apl_code::{Function, Variable};
use apl_contexts::{Call, Context, Contexts, Statement};
use apl_defn::Header;
use apl_frames::FrameBuf;
use apl_machine_state::{Operand, Slots};
use apl_names::{Binding, Names};
use apl_symbols::{Class, Name};
use apl_translate::{Form, Placed, Word};
use std::alloc::{AllocError, Global};

/// The class with which an item was bound, where it is a user name.
fn class_in(form: &Form) -> Option<Class>
    ensures { option_to_list result ≡ class_in form.now }
{
    let Form::Word(word) = form else {
        return None;
    };
    match word {
        Word::Variable(Variable::Name(_)) => Some(Class::Variable),
        Word::Niladic(Variable::Name(_)) => Some(Class::Niladic),
        Word::Function(Function::Name(_)) => Some(Class::Function),
        _ => None,
    }
}

/// The classes with which the user names of a line were bound, in the order of the text.
fn classes_of(alloc: Global, items: &[Placed]) -> Result<Vec<Class>, AllocError>
    ensures { IfOk result (λ v. v.items ≡ classes_of items.now) }
{
    let mut classes = Vec::new(alloc);
    for item in items {
        if let Some(class) = class_in(&item.form) {
            classes.push(class)?;
        }
    }
    Ok(classes)
}

/// The same index list again.
fn slots_again(alloc: Global, slots: &Slots) -> Result<Slots, AllocError>
    ensures { IfOk result (λ s. s ≡ slots.now) }
{
    let mut again = Vec::new(alloc);
    for slot in slots.as_slice() {
        match slot {
            Some(array) => again.push(Some(array.copy()?))?,
            None => again.push(None)?,
        }
    }
    Ok(Slots::new(again))
}

/// The same operand again.
fn operand_again(alloc: Global, operand: &Operand) -> Result<Operand, AllocError>
    ensures { IfOk result (λ o. o ≡ operand.now) }
{
    match operand {
        Operand::Value(array) => Ok(Operand::Value(array.copy()?)),
        Operand::Slots(slots) => Ok(Operand::Slots(slots_again(alloc, slots)?)),
    }
}

/// The same operands again.
fn operands_again(alloc: Global, operands: &[Operand]) -> Result<Vec<Operand>, AllocError>
    ensures { IfOk result (λ v. v.items ≡ operands.now) }
{
    let mut again = Vec::new(alloc);
    for operand in operands {
        again.push(operand_again(alloc, operand)?)?;
    }
    Ok(again)
}

/// What is kept of a line.
fn rest_part(alloc: Global, line: &FrameBuf) -> Result<RestPart, AllocError>
    ensures { IfOk result (λ r. r ≡ waiting_of (flat_rest line.now)) }
{
    let classes = classes_of(alloc, line.bound().items())?;
    let frame = line.frame();
    let operands = operands_again(alloc, frame.operands)?;
    Ok(RestPart::new(classes, frame.done, operands))
}

/// A statement, or a text that is executed, in parts.
fn statement_part(alloc: Global, statement: &Statement) -> Result<StatementPart, AllocError>
    ensures { IfOk result (λ p. p ≡ record { text = statement.now.text; rest = waiting_of (flat_rest statement.now.line) }) }
{
    let text = statement.text.copy(alloc)?;
    let rest = rest_part(alloc, &statement.line)?;
    Ok(StatementPart { text, rest })
}

/// Adds a name with the value that a scope gives it, if it does.
fn push_local(
    locals: &mut Vec<(Name, Option<Array>)>,
    names: &Names,
    scope: usize,
    name: &Name,
) -> Result<(), AllocError>
    ensures { OnOk result (locals.new.items ≡ locals.old.items ++ (name.now, value_in (said (first_map (drop scope names.now)) name.now)) ∷ []) }
{
    let value = match names.in_scope(scope, name) {
        Some(Binding::Value(array)) => Some(array.copy()?),
        _ => None,
    };
    locals.push((*name, value))?;
    Ok(())
}

/// Adds a name, where there is one.
fn push_named(
    locals: &mut Vec<(Name, Option<Array>)>,
    names: &Names,
    scope: usize,
    name: Option<Name>,
) -> Result<(), AllocError>
    ensures { OnOk result (locals.new.items ≡ locals.old.items ++ values_in (first_map (drop scope names.now)) (given_name name)) }
{
    if let Some(name) = name {
        push_local(locals, names, scope, &name)?;
    }
    Ok(())
}

/// Adds names.
fn push_locals(
    locals: &mut Vec<(Name, Option<Array>)>,
    names: &Names,
    scope: usize,
    header_locals: &[Name],
) -> Result<(), AllocError>
    ensures { OnOk result (locals.new.items ≡ locals.old.items ++ values_in (first_map (drop scope names.now)) header_locals.now) }
{
    for name in header_locals {
        push_local(locals, names, scope, name)?;
    }
    Ok(())
}

/// The names of a header with the values that a scope gives them.
fn locals_of(
    alloc: Global,
    names: &Names,
    scope: usize,
    header: &Header,
) -> Result<Vec<(Name, Option<Array>)>, AllocError>
    ensures { IfOk result (λ v. v.items ≡ values_in (first_map (drop scope names.now)) (names_in header.now)) }
{
    let mut locals = Vec::new(alloc);
    push_named(&mut locals, names, scope, header.result)?;
    push_named(&mut locals, names, scope, header.left)?;
    push_named(&mut locals, names, scope, header.right)?;
    push_locals(&mut locals, names, scope, header.locals.as_slice())?;
    Ok(locals)
}

/// A call in parts, whose names are those of a scope.
fn call_part(
    alloc: Global,
    names: &Names,
    scope: usize,
    call: &Call,
) -> Result<CallPart, AllocError>
    ensures { IfOk result (λ p. p ≡ record {
      definition = call.now.definition;
      at = call.now.at;
      locals = values_in (first_map (drop scope names.now)) (names_in call.now.definition.header);
      rest = option_map waiting_of (option_map flat_rest call.now.rest);
    }) }
{
    let function = call.function().share()?;
    let locals = locals_of(alloc, names, scope, call.definition().header())?;
    match call.line() {
        Some(line) => {
            let rest = rest_part(alloc, line)?;
            return Ok(CallPart::new(function, call.at(), locals, Some(rest)));
        }
        None => return Ok(CallPart::new(function, call.at(), locals, None)),
    }
}

/// A context in parts; where it is a call, its names are those of a scope.
fn context_part(
    alloc: Global,
    names: &Names,
    scope: usize,
    context: &Context,
) -> Result<ContextPart, AllocError>
    ensures { IfOk result (λ p. p ≡ part_of (dress (drop scope names.now) context.now)) }
{
    match context {
        Context::Statement(statement) => {
            return Ok(ContextPart::Statement(statement_part(alloc, statement)?));
        }
        Context::Call(call) => {
            return Ok(ContextPart::Call(call_part(alloc, names, scope, call)?));
        }
        Context::Execute(executed) => {
            return Ok(ContextPart::Execute(statement_part(alloc, executed)?));
        }
    }
}

/// The scope for the contexts beneath this one.
fn scope_beneath(scope: usize, context: &Context) -> usize
    requires { scope < usize.MAX }
    ensures { result ≡ scope_beneath scope context.now }
{
    match context {
        Context::Call(_) => scope + 1,
        Context::Statement(_) | Context::Execute(_) => scope,
    }
}

/// The contexts in parts, the oldest first.
pub(crate) fn contexts_of(
    alloc: Global,
    names: &Names,
    contexts: &Contexts,
) -> Result<Vec<ContextPart>, AllocError>
    ensures { IfOk result (λ v. v.items ≡ reverse (map part_of (dressed names.now contexts.now))) }
{
    let mut parts = Vec::new(alloc);
    let mut scope = 0;
    while let Some(context) = contexts.get(parts.len()) {
        parts.push(context_part(alloc, names, scope, context)?)?;
        scope = scope_beneath(scope, context);
    }
    parts.reverse();
    Ok(parts)
}
