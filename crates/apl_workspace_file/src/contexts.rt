//! Contexts.
ghost use Rattle.std.specs.Prelude.{◌≡◌, IfOk};
ghost use Rattle.serde_json.specs.View.{view};
ghost use Rattle.apl_workspace_file.specs.Reading.{Gives, rest_of, local_of, statement_of, execute_of, call_of, context_of};
ghost use Rattle.apl_workspace_file.specs.Trees.{rest_tree, local_tree, context_tree};

use crate::error::TreeError;
use crate::field::Field;
use crate::fields::{CallField, ContextField, LocalField, RestField, StatementField};
use crate::members::{end, kind, next_field, next_kind, object, put_field, put_word};
use serde_json::{Map, Value};
use std::alloc::{AllocError, Global};

impl Field for RestField {
    ghost reading = { rest_of };

    ghost tree = { rest_tree };

    #[tactic(auto, unfolding(crate::specs::Reading::rest_of))]
    fn read(alloc: Global, value: Value) -> Result<RestField, TreeError> {
        let mut members = object(value)?;
        let classes = next_field(&mut members, alloc, "classes")?;
        let code = next_field(&mut members, alloc, "code")?;
        let done = next_field(&mut members, alloc, "done")?;
        let operands = next_field(&mut members, alloc, "operands")?;
        end(members)?;
        Ok(RestField {
            classes,
            code,
            done,
            operands,
        })
    }

    fn write(&self, alloc: Global) -> Result<Value, AllocError> {
        let mut object = Map::new(alloc);
        put_field(&mut object, alloc, "classes", &self.classes)?;
        put_field(&mut object, alloc, "code", &self.code)?;
        put_field(&mut object, alloc, "done", &self.done)?;
        put_field(&mut object, alloc, "operands", &self.operands)?;
        Ok(Value::Object(object))
    }
}

impl Field for LocalField {
    ghost reading = { local_of };

    ghost tree = { local_tree };

    #[tactic(auto, unfolding(crate::specs::Reading::local_of))]
    fn read(alloc: Global, value: Value) -> Result<LocalField, TreeError> {
        let mut members = object(value)?;
        let name = next_field(&mut members, alloc, "name")?;
        let value = next_field(&mut members, alloc, "value")?;
        end(members)?;
        Ok(LocalField { name, value })
    }

    fn write(&self, alloc: Global) -> Result<Value, AllocError> {
        let mut object = Map::new(alloc);
        put_field(&mut object, alloc, "name", &self.name)?;
        put_field(&mut object, alloc, "value", &self.value)?;
        Ok(Value::Object(object))
    }
}

#[tactic(auto, unfolding(crate::specs::Reading::statement_of))]
fn read_statement(alloc: Global, value: Value) -> Result<StatementField, TreeError>
    ensures { Gives result (statement_of (view value)) }
{
    let mut members = object(value)?;
    next_kind(&mut members, "statement")?;
    let line = next_field(&mut members, alloc, "line")?;
    let rest = next_field(&mut members, alloc, "rest")?;
    end(members)?;
    Ok(StatementField { line, rest })
}

#[tactic(auto, unfolding(crate::specs::Reading::execute_of))]
fn read_execute(alloc: Global, value: Value) -> Result<StatementField, TreeError>
    ensures { Gives result (execute_of (view value)) }
{
    let mut members = object(value)?;
    next_kind(&mut members, "execute")?;
    let rest = next_field(&mut members, alloc, "rest")?;
    let line = next_field(&mut members, alloc, "text")?;
    end(members)?;
    Ok(StatementField { line, rest })
}

#[tactic(auto, unfolding(crate::specs::Reading::call_of))]
fn read_call(alloc: Global, value: Value) -> Result<CallField, TreeError>
    ensures { Gives result (call_of (view value)) }
{
    let mut members = object(value)?;
    let at = next_field(&mut members, alloc, "at")?;
    let header = next_field(&mut members, alloc, "header")?;
    next_kind(&mut members, "call")?;
    let lines = next_field(&mut members, alloc, "lines")?;
    let locals = next_field(&mut members, alloc, "locals")?;
    let rest = next_field(&mut members, alloc, "rest")?;
    end(members)?;
    Ok(CallField {
        at,
        header,
        lines,
        locals,
        rest,
    })
}

impl Field for ContextField {
    ghost reading = { context_of };

    ghost tree = { context_tree };

    #[tactic(auto, unfolding(crate::specs::Reading::context_of))]
    fn read(alloc: Global, value: Value) -> Result<ContextField, TreeError> {
        match kind(&value) {
            Some("call") => Ok(ContextField::Call(read_call(alloc, value)?)),
            Some("statement") => Ok(ContextField::Statement(read_statement(alloc, value)?)),
            Some("execute") => Ok(ContextField::Execute(read_execute(alloc, value)?)),
            _ => Err(TreeError::Form),
        }
    }

    fn write(&self, alloc: Global) -> Result<Value, AllocError> {
        let mut object = Map::new(alloc);
        match self {
            ContextField::Statement(statement) => {
                put_word(&mut object, alloc, "kind", "statement")?;
                put_field(&mut object, alloc, "line", &statement.line)?;
                put_field(&mut object, alloc, "rest", &statement.rest)?;
                Ok(Value::Object(object))
            }
            ContextField::Execute(execute) => {
                put_word(&mut object, alloc, "kind", "execute")?;
                put_field(&mut object, alloc, "rest", &execute.rest)?;
                put_field(&mut object, alloc, "text", &execute.line)?;
                Ok(Value::Object(object))
            }
            ContextField::Call(call) => {
                put_field(&mut object, alloc, "at", &call.at)?;
                put_field(&mut object, alloc, "header", &call.header)?;
                put_word(&mut object, alloc, "kind", "call")?;
                put_field(&mut object, alloc, "lines", &call.lines)?;
                put_field(&mut object, alloc, "locals", &call.locals)?;
                put_field(&mut object, alloc, "rest", &call.rest)?;
                Ok(Value::Object(object))
            }
        }
    }
}
