//! Functions, variables, and whole files.
ghost use Rattle.std.specs.Prelude.{◌≡◌, IfOk, IfErr, true, false};
ghost use Rattle.std.specs.List.{list_all};
ghost use Rattle.serde_json.specs.Data.{Data};
ghost use Rattle.serde_json.specs.View.{view};
ghost use Rattle.apl_workspace_file.specs.Fitting.{is_of_version_one, fits_version};
ghost use Rattle.apl_workspace_file.specs.Reading.{Gives, function_of, variable_of, version_of, members_of, file_of};
ghost use Rattle.apl_workspace_file.specs.Trees.{function_tree, variable_tree, version_tree, tree_of};

use crate::error::TreeError;
use crate::field::Field;
use crate::fields::{ContextField, File, FunctionField, VariableField, Version};
use crate::members::{end, next_field, object, put_field};
use serde_json::{Map, Value};
use std::alloc::{AllocError, Global};

impl Field for FunctionField {
    ghost reading = { function_of };

    ghost tree = { function_tree };

    #[tactic(auto, unfolding(crate::specs::Reading::function_of))]
    fn read(alloc: Global, value: Value) -> Result<FunctionField, TreeError> {
        let mut members = object(value)?;
        let header = next_field(&mut members, alloc, "header")?;
        let lines = next_field(&mut members, alloc, "lines")?;
        let stop = next_field(&mut members, alloc, "stop")?;
        let trace = next_field(&mut members, alloc, "trace")?;
        end(members)?;
        Ok(FunctionField {
            header,
            lines,
            stop,
            trace,
        })
    }

    fn write(&self, alloc: Global) -> Result<Value, AllocError> {
        let mut object = Map::new(alloc);
        put_field(&mut object, alloc, "header", &self.header)?;
        put_field(&mut object, alloc, "lines", &self.lines)?;
        put_field(&mut object, alloc, "stop", &self.stop)?;
        put_field(&mut object, alloc, "trace", &self.trace)?;
        Ok(Value::Object(object))
    }
}

impl Field for VariableField {
    ghost reading = { variable_of };

    ghost tree = { variable_tree };

    #[tactic(auto, unfolding(crate::specs::Reading::variable_of))]
    fn read(alloc: Global, value: Value) -> Result<VariableField, TreeError> {
        let mut members = object(value)?;
        let name = next_field(&mut members, alloc, "name")?;
        let value = next_field(&mut members, alloc, "value")?;
        end(members)?;
        Ok(VariableField { name, value })
    }

    fn write(&self, alloc: Global) -> Result<Value, AllocError> {
        let mut object = Map::new(alloc);
        put_field(&mut object, alloc, "name", &self.name)?;
        put_field(&mut object, alloc, "value", &self.value)?;
        Ok(Value::Object(object))
    }
}

impl Field for Version {
    ghost reading = { version_of };

    ghost tree = { version_tree };

    #[tactic(auto, unfolding(crate::specs::Reading::version_of))]
    fn read(alloc: Global, value: Value) -> Result<Version, TreeError> {
        match usize::read(alloc, value)? {
            1 => Ok(Version::One),
            2 => Ok(Version::Two),
            _ => Err(TreeError::Form),
        }
    }

    fn write(&self, _alloc: Global) -> Result<Value, AllocError> {
        match self {
            Version::One => Ok(Value::from(1u64)),
            Version::Two => Ok(Value::from(2u64)),
        }
    }
}

#[tactic(auto, unfolding(crate::specs::Reading::members_of))]
fn read_members(alloc: Global, value: Value) -> Result<File, TreeError>
    ensures { Gives result (members_of (view value)) }
{
    let mut members = object(value)?;
    let contexts = next_field(&mut members, alloc, "contexts")?;
    let functions = next_field(&mut members, alloc, "functions")?;
    let origin = next_field(&mut members, alloc, "io")?;
    let variables = next_field(&mut members, alloc, "variables")?;
    let version = next_field(&mut members, alloc, "version")?;
    end(members)?;
    Ok(File {
        version,
        functions,
        variables,
        origin,
        contexts,
    })
}

// Whether version 1 knows this context.
fn is_known_to_version_one(context: &ContextField) -> bool
    ensures { result ≡ is_of_version_one context.now }
{
    match context {
        ContextField::Statement(_) | ContextField::Call(_) => true,
        ContextField::Execute(_) => false,
    }
}

// Whether version 1 knows each of these contexts.
fn are_known_to_version_one(contexts: &[ContextField]) -> bool
    ensures { result ≡ list_all is_of_version_one contexts.now }
{
    contexts
        .iter()
        .all(|context| is_known_to_version_one(context))
}

// Whether its contexts are such as its version knows.
fn keeps_to_its_version(file: &File) -> bool
    ensures { result ≡ fits_version file.now.version file.now.contexts }
{
    match file.version {
        Version::One => are_known_to_version_one(file.contexts.as_slice()),
        Version::Two => true,
    }
}

impl Field for File {
    ghost reading = { file_of };

    ghost tree = { tree_of };

    #[tactic(auto, unfolding(crate::specs::Reading::file_of))]
    fn read(alloc: Global, value: Value) -> Result<File, TreeError> {
        let file = read_members(alloc, value)?;
        if file.origin < 2 && keeps_to_its_version(&file) {
            Ok(file)
        } else {
            Err(TreeError::Form)
        }
    }

    fn write(&self, alloc: Global) -> Result<Value, AllocError> {
        let mut object = Map::new(alloc);
        put_field(&mut object, alloc, "contexts", &self.contexts)?;
        put_field(&mut object, alloc, "functions", &self.functions)?;
        put_field(&mut object, alloc, "io", &self.origin)?;
        put_field(&mut object, alloc, "variables", &self.variables)?;
        put_field(&mut object, alloc, "version", &self.version)?;
        Ok(Value::Object(object))
    }
}
