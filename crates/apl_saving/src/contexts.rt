//! Contexts.
ghost use Rattle.std.specs.Prelude.{◌≡◌, All, IfOk, Ok, is_ok, true};
ghost use Rattle.apl_defn.specs.Definitions.{is_line, line_of};
ghost use Rattle.apl_tokens.specs.Tokens.{tokens_of};
ghost use Rattle.apl_saved.specs.Spelled.{BothOrNeither, IsCallOf, IsContextOf, IsLocalOf, IsRestOf, IsStatementOf, Pairwise};
ghost use Rattle.apl_saving.specs.Readable.{IsReadable};

use crate::functions::{DefinitionField, definition_field};
use crate::lines::rest_field;
use crate::saved::{Saved, list_field};
use crate::texts::text_field;
use apl_arrays::Array;
use apl_charset::Text;
use apl_parts::{CallPart, ContextPart, StatementPart};
use apl_symbols::Name;
use apl_tokens::{Token, TokenError, tokens};
use apl_workspace_file::{
    CallField, ContextField, ListField, LocalField, RestField, StatementField,
};
use std::alloc::{AllocError, Global};

/// The tokens of a text that has some.
fn tokens_of_text(alloc: Global, text: &Text) -> Result<Vec<Token>, AllocError>
    requires { is_ok (tokens_of text.now) ≡ true }
    ensures { IfOk result (λ v. tokens_of text.now ≡ Ok v.items) }
{
    match tokens(alloc, text.as_slice()) {
        Ok(tokens) => return Ok(tokens),
        Err(TokenError::Memory) => return Err(AllocError),
        Err(_) => unreachable!(),
    }
}

/// A statement, or a text that is executed.
fn statement_field(alloc: Global, part: &StatementPart) -> Result<StatementField, AllocError>
    requires { is_ok (tokens_of part.now.text) ≡ true }
    ensures { IfOk result (λ f. IsStatementOf f part.now) }
{
    let line = text_field(alloc, part.text.as_slice())?;
    let tokens = tokens_of_text(alloc, &part.text)?;
    let rest = rest_field(alloc, tokens.as_slice(), &part.rest)?;
    Ok(StatementField { line, rest })
}

// A local name, with its value if it has one.
impl Saved for (Name, Option<Array>) {
    type Field = LocalField;

    ghost is_field = { IsLocalOf };

    fn field(&self, alloc: Global) -> Result<LocalField, AllocError> {
        let (name, value) = self;
        let name = text_field(alloc, name.as_slice())?;
        let value = value.field(alloc)?;
        Ok(LocalField { name, value })
    }
}

/// The line of a call, where that awaits an answer.
fn call_rest_field(alloc: Global, part: &CallPart) -> Result<Option<RestField>, AllocError>
    requires { is_line part.now.definition part.now.at ≡ true }
    ensures { IfOk result (λ o. BothOrNeither (λ r w. IsRestOf r (line_of part.now.definition part.now.at) w) o part.now.rest) }
{
    let Some(rest) = part.rest() else {
        return Ok(None);
    };
    let Some(tokens) = part.function().definition().tokens(alloc, part.at())? else {
        unreachable!()
    };
    let field = rest_field(alloc, tokens.as_slice(), rest)?;
    Ok(Some(field))
}

/// A standing call.
fn call_field(alloc: Global, part: &CallPart) -> Result<CallField, AllocError>
    requires { is_line part.now.definition part.now.at ≡ true }
    ensures { IfOk result (λ f. IsCallOf f part.now) }
{
    let definition = definition_field(alloc, part.function().definition())?;
    let locals = list_field(alloc, part.locals())?;
    let rest = call_rest_field(alloc, part)?;
    let DefinitionField { header, lines } = definition;
    Ok(CallField {
        at: part.at(),
        header,
        lines,
        locals,
        rest,
    })
}

/// A context that waits.
fn context_field(alloc: Global, part: &ContextPart) -> Result<ContextField, AllocError>
    requires { IsReadable part.now }
    ensures { IfOk result (λ f. IsContextOf f part.now) }
{
    match part {
        ContextPart::Statement(statement) => {
            Ok(ContextField::Statement(statement_field(alloc, statement)?))
        }
        ContextPart::Call(call) => Ok(ContextField::Call(call_field(alloc, call)?)),
        ContextPart::Execute(execute) => {
            Ok(ContextField::Execute(statement_field(alloc, execute)?))
        }
    }
}

/// Contexts, in their order.
pub(crate) fn contexts_field(
    alloc: Global,
    parts: &[ContextPart],
) -> Result<ListField<ContextField>, AllocError>
    requires { All IsReadable parts.now }
    ensures { IfOk result (λ l. Pairwise IsContextOf l parts.now) }
{
    let mut fields = Vec::with_capacity(alloc, parts.len())?;
    for part in parts {
        fields.push(context_field(alloc, part)?)?;
    }
    Ok(ListField::new(fields))
}
