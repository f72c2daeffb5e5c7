//! Numbers, texts, lists, and values that may be missing.
ghost use Rattle.serde_json.specs.Data.{string};
ghost use Rattle.apl_workspace_file.specs.Reading.{whole_of, number_of, text_of, list_of, option_of};
ghost use Rattle.apl_workspace_file.specs.Trees.{whole_tree, number_tree, list_tree, option_tree};

use crate::error::TreeError;
use crate::field::Field;
use crate::list::{ListField, TextField};
use serde_json::Value;
use std::alloc::{AllocError, Global};

// A whole number from 0 to 2^63 - 1.
impl Field for usize {
    ghost reading = { whole_of };

    ghost tree = { whole_tree };

    #[tactic(auto, unfolding(crate::specs::Reading::whole_of))]
    fn read(_alloc: Global, value: Value) -> Result<usize, TreeError> {
        match value.as_u64() {
            Some(n) if n < 1 << 63 => Ok(n as usize),
            _ => Err(TreeError::Form),
        }
    }

    fn write(&self, _alloc: Global) -> Result<Value, AllocError> {
        Ok(Value::from(*self as u64))
    }
}

// A number from -2^63 to 2^63 - 1.
impl Field for i64 {
    ghost reading = { number_of };

    ghost tree = { number_tree };

    #[tactic(auto, unfolding(crate::specs::Reading::number_of))]
    fn read(_alloc: Global, value: Value) -> Result<i64, TreeError> {
        if let Some(n) = value.as_u64() {
            return if n < 1 << 63 {
                Ok(n as i64)
            } else {
                Err(TreeError::Form)
            };
        }
        match value.as_i64() {
            Some(n) if n < 0 => Ok(n),
            _ => Err(TreeError::Form),
        }
    }

    fn write(&self, _alloc: Global) -> Result<Value, AllocError> {
        Ok(Value::from(*self))
    }
}

impl Field for TextField {
    ghost reading = { text_of };

    ghost tree = { string };

    fn read(_alloc: Global, value: Value) -> Result<TextField, TreeError> {
        match value {
            Value::String(text) => Ok(TextField::new(text)),
            _ => Err(TreeError::Form),
        }
    }

    fn write(&self, alloc: Global) -> Result<Value, AllocError> {
        Ok(Value::String(String::from_str(alloc, self.as_str())?))
    }
}

impl<T: Field> Field for ListField<T> {
    ghost reading = { list_of T.reading };

    ghost tree = { list_tree T.tree };

    #[tactic(auto, unfolding(crate::specs::Reading::list_of))]
    fn read(alloc: Global, value: Value) -> Result<ListField<T>, TreeError> {
        let Value::Array(items) = value else {
            return Err(TreeError::Form);
        };
        let mut found = Vec::with_capacity(alloc, items.len())?;
        for item in items {
            found.push(T::read(alloc, item)?)?;
        }
        Ok(ListField::new(found))
    }

    fn write(&self, alloc: Global) -> Result<Value, AllocError> {
        let fields = self.as_slice();
        let mut items = Vec::with_capacity(alloc, fields.len())?;
        for field in fields {
            items.push(field.write(alloc)?)?;
        }
        Ok(Value::Array(items))
    }
}

// What is missing is null.
impl<T: Field> Field for Option<T> {
    ghost reading = { option_of T.reading };

    ghost tree = { option_tree T.tree };

    #[tactic(auto, unfolding(crate::specs::Reading::option_of))]
    fn read(alloc: Global, value: Value) -> Result<Option<T>, TreeError> {
        match value {
            Value::Null => Ok(None),
            _ => Ok(Some(T::read(alloc, value)?)),
        }
    }

    fn write(&self, alloc: Global) -> Result<Value, AllocError> {
        match self {
            None => Ok(Value::Null),
            Some(field) => field.write(alloc),
        }
    }
}
