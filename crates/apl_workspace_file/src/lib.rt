//! Workspace files: which bytes are one, and the bytes of each.
//!
//! A workspace file is JSON. This crate says which trees have the form of one, that is its keys, its
//! kinds of values and its ranges of whole numbers. Whether its texts, arrays, definitions and contexts
//! fit one another is judged elsewhere.
#![tactic(auto)]

mod arrays;
mod bytes;
mod contexts;
mod error;
mod field;
mod fields;
mod leaves;
mod list;
mod members;
mod whole;

pub use bytes::{one_file, read, write};
pub use error::ReadError;
pub use fields::{
    ArrayField, CallField, ContextField, Elements, File, FunctionField, LocalField, OperandField,
    RestField, StatementField, VariableField, Version,
};
pub use list::{ListField, TextField};
