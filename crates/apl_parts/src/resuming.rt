//! Contexts that wait again.
ghost use Rattle.std.specs.Prelude.{◌≡◌, ◌∷◌, ◌++◌, [], ◌≤◌, true, All, IfOk, IfSome, Ok, OnOk, is_ok, map, option_map, reverse};
ghost use Rattle.apl_defn.specs.Definitions.{is_line, line_of};
ghost use Rattle.apl_frames.specs.declared.frame.Stage.TheVariants.{Pendent};
ghost use Rattle.apl_frames.specs.Flat.{flat_rest, rest_with};
ghost use Rattle.apl_machine_state.specs.Calls.{bound_to, label_of};
ghost use Rattle.apl_names.specs.declared.binding.Binding.TheVariants.{Label};
ghost use Rattle.apl_names.specs.Maps.{AreBeneath, first_map, map_of, with_locals};
ghost use Rattle.apl_tokens.specs.Tokens.{tokens_of};
ghost use Rattle.apl_translate.specs.Binding.{bound_of};
ghost use Rattle.apl_parts.specs.Making.{HasAdded, Stand, Waits};
ghost use Rattle.apl_parts.specs.Restored.{IsContext, IsWaiting, IsWaitingIn, rest_of};

use crate::parts::{CallPart, ContextPart, RestPart, StatementPart};
use apl_arrays::Array;
use apl_charset::Text;
use apl_contexts::{Call, Context, Contexts, Statement};
use apl_defn::Definition;
use apl_frames::FrameBuf;
use apl_names::{Binding, DefinedFunction, Names};
use apl_symbols::Name;
use apl_tokens::{Token, TokenError, tokens};
use apl_translate::{Cache, bind};
use std::alloc::{AllocError, Global};

/// The line of these tokens, a text's, as it waits.
fn waiting_line(
    alloc: Global,
    tokens: &[Token],
    rest: RestPart,
    cache: &mut Cache,
) -> Result<FrameBuf, AllocError>
    requires { Waits tokens.now rest }
    ensures rest { IfOk result (λ f. flat_rest f ≡ rest_with Pendent (bound_of tokens.now rest.classes) rest.done (reverse rest.operands)) }
    ensures pends { IfOk result (λ f. f.stage ≡ Pendent) }
{
    let RestPart {
        classes,
        done,
        operands,
    } = rest;
    let bound = bind(alloc, tokens, classes.as_slice())?;
    let code = cache.translate(&bound)?.code;
    // The items are those of a line, and the length says that the instructions are a code.
    let _items = bound.items();
    let _len = code.len();
    let line = FrameBuf::pendent(alloc, bound, code, done, operands)?;
    Ok(line)
}

/// The tokens of a text that is a line.
fn tokens_of_line(alloc: Global, text: &Text) -> Result<Vec<Token>, AllocError>
    requires { is_ok (tokens_of text.now) ≡ true }
    ensures { IfOk result (λ v. tokens_of text.now ≡ Ok v.items) }
{
    match tokens(alloc, text.as_slice()) {
        Ok(tokens) => return Ok(tokens),
        Err(TokenError::Memory) => return Err(AllocError),
        Err(_) => unreachable!(),
    }
}

/// A statement, or a text that is executed, as it waits.
fn statement_of(
    alloc: Global,
    part: StatementPart,
    cache: &mut Cache,
) -> Result<Statement, AllocError>
    requires { IsWaiting part.text part.rest }
    ensures text { IfOk result (λ s. s.text ≡ part.text) }
    ensures rest { IfOk result (λ s. flat_rest s.line ≡ rest_of part.text part.rest) }
    ensures pends { IfOk result (λ s. s.line.stage ≡ Pendent) }
{
    let StatementPart { text, rest } = part;
    let tokens = tokens_of_line(alloc, &text)?;
    let line = waiting_line(alloc, tokens.as_slice(), rest, cache)?;
    Ok(Statement { text, line })
}

/// The tokens of a line of a function.
fn tokens_at(alloc: Global, definition: &Definition, at: usize) -> Result<Vec<Token>, AllocError>
    requires { is_line definition.now at ≡ true }
    ensures { IfOk result (λ tokens. tokens_of (line_of definition.now at) ≡ Ok tokens.items) }
{
    let Some(tokens) = definition.tokens(alloc, at)? else {
        unreachable!()
    };
    Ok(tokens)
}

/// A call at that line of its function, as it waits.
fn call_of(
    alloc: Global,
    function: DefinedFunction,
    at: usize,
    rest: Option<RestPart>,
    cache: &mut Cache,
) -> Result<Call, AllocError>
    requires line { is_line function at ≡ true }
    requires waits { IsWaitingIn (line_of function at) rest }
    ensures definition { IfOk result (λ c. c.definition ≡ function) }
    ensures at { IfOk result (λ c. c.at ≡ at) }
    ensures rest { IfOk result (λ c. option_map flat_rest c.rest ≡ option_map (rest_of (line_of function at)) rest) }
    ensures pends { IfOk result (λ c. IfSome c.rest (λ f. f.stage ≡ Pendent)) }
{
    let Some(rest) = rest else {
        return Ok(Call::stopped(function, at));
    };
    let tokens = tokens_at(alloc, function.definition(), at)?;
    let line = waiting_line(alloc, tokens.as_slice(), rest, cache)?;
    Ok(Call::new(function, at, line))
}

/// What a name of a call stands for: its value, if it has one, else it is unset.
fn bound_to(alloc: Global, value: Option<Array>) -> Result<Binding, AllocError>
    ensures { IfOk result (λ binding. binding ≡ bound_to value) }
{
    match value {
        Some(array) => Ok(Binding::Value(array)),
        None => Ok(Binding::Unset),
    }
}

/// What a label stands for that is on this line.
fn label_at(line: usize) -> Binding
    requires { line ≤ 999 }
    ensures { result ≡ Label line }
{
    Binding::Label(line as u16)
}

/// Makes labels of the newest scope's stand for the numbers of their lines. Of two of one name, the first stands. After an error some of them
/// do.
#[inline(always)]
pub fn bind_labels(names: &mut Names, labels: &[(Name, usize)]) -> Result<(), AllocError>
    requires { All (λ l. l.1 ≤ 999) labels.now }
    ensures ok { OnOk result (names.new ≡ with_locals (map label_of labels.now) names.old) }
    ensures beneath { AreBeneath names.old names.new }
{
    let mut left = labels;
    while let Some(((name, line), prefix)) = left.split_last() {
        names.bind(name, label_at(*line))?;
        left = prefix;
    }
    Ok(())
}

/// Makes names of the newest scope's stand for their values, or unset. Of two of one name, the first stands.
fn bind_values(
    alloc: Global,
    names: &mut Names,
    mut values: Vec<(Name, Option<Array>)>,
) -> Result<(), AllocError>
    ensures { OnOk result (names.new ≡ with_locals (map (λ l. (l.0, bound_to l.1)) values.items) names.old) }
{
    while let Some(local) = values.pop() {
        let binding = bound_to(alloc, local.1)?;
        names.bind(&local.0, binding)?;
    }
    Ok(())
}

/// The newest scope is that of a call with these locals, beside the labels of its function.
fn open_scope(
    alloc: Global,
    names: &mut Names,
    locals: Vec<(Name, Option<Array>)>,
    definition: &Definition,
) -> Result<(), AllocError>
    ensures { OnOk result (names.new ≡ map_of (map (λ l. (l.0, bound_to l.1)) locals.items ++ map label_of definition.now.labels) ∷ names.old) }
{
    // The header says that this is a definition, so its names differ.
    let _header = definition.header();
    names.open()?;
    bind_labels(names, definition.labels())?;
    bind_values(alloc, names, locals)?;
    Ok(())
}

/// Puts a call, with its names, on the other contexts.
fn put_call(
    alloc: Global,
    part: CallPart,
    names: &mut Names,
    contexts: &mut Contexts,
    cache: &mut Cache,
) -> Result<(), AllocError>
    requires { IsContext (ContextPart.Call part) }
    ensures { OnOk result (HasAdded (ContextPart.Call part) names.old contexts.old names.new contexts.new) }
{
    let CallPart {
        function,
        at,
        locals,
        rest,
    } = part;
    open_scope(alloc, names, locals, function.definition())?;
    let call = call_of(alloc, function, at, rest, cache)?;
    contexts.push(Context::Call(call))?;
    Ok(())
}

/// Puts a context on the others.
fn put_context(
    alloc: Global,
    part: ContextPart,
    names: &mut Names,
    contexts: &mut Contexts,
    cache: &mut Cache,
) -> Result<(), AllocError>
    requires { IsContext part }
    ensures { OnOk result (HasAdded part names.old contexts.old names.new contexts.new) }
{
    match part {
        ContextPart::Statement(part) => {
            let statement = statement_of(alloc, part, cache)?;
            contexts.push(Context::Statement(statement))?;
            return Ok(());
        }
        ContextPart::Call(part) => {
            put_call(alloc, part, names, contexts, cache)?;
            return Ok(());
        }
        ContextPart::Execute(part) => {
            let executed = statement_of(alloc, part, cache)?;
            contexts.push(Context::Execute(executed))?;
            return Ok(());
        }
    }
}

/// Puts contexts, the oldest first, on one another.
pub(crate) fn put_contexts(
    alloc: Global,
    mut parts: Vec<ContextPart>,
    names: &mut Names,
    contexts: &mut Contexts,
    cache: &mut Cache,
) -> Result<(), AllocError>
    requires whole { All IsContext parts.items }
    requires single { names.old ≡ first_map names.old ∷ [] }
    requires none { contexts.old ≡ [] }
    ensures { OnOk result (Stand (reverse parts.items) (first_map names.old) names.new contexts.new) }
{
    parts.reverse();
    while let Some(part) = parts.pop() {
        put_context(alloc, part, names, contexts, cache)?;
    }
    Ok(())
}
