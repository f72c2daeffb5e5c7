//! What a workspace file holds, field by field.
//!
//! Whole numbers of a file are from 0 to 2^63 - 1, those of an array from -2^63 to 2^63 - 1.

use crate::list::{ListField, TextField};

/// The version of a file. From the second on a context may be an execute.
#[derive(Clone, Copy, Drop)]
pub enum Version {
    One,
    Two,
}

/// A workspace file.
pub struct File {
    pub version: Version,
    pub functions: ListField<FunctionField>,
    pub variables: ListField<VariableField>,
    /// The index origin, 0 or 1.
    pub origin: usize,
    /// The contexts that stand, the oldest first.
    pub contexts: ListField<ContextField>,
}

// Written out, so that no crate above proves again what it does.
impl Drop for File {
    fn drop(self) {
        let File {
            version: _,
            functions,
            variables,
            origin: _,
            contexts,
        } = self;
        drop(functions);
        drop(variables);
        drop(contexts);
    }
}

/// A global function.
pub struct FunctionField {
    pub header: TextField,
    pub lines: ListField<TextField>,
    /// The lines that it stops before.
    pub stop: ListField<usize>,
    /// The lines that are traced.
    pub trace: ListField<usize>,
}

// Written out, so that no crate above proves again what it does.
impl Drop for FunctionField {
    fn drop(self) {
        let FunctionField {
            header,
            lines,
            stop,
            trace,
        } = self;
        drop(header);
        drop(lines);
        drop(stop);
        drop(trace);
    }
}

/// A global variable.
pub struct VariableField {
    pub name: TextField,
    pub value: ArrayField,
}

// Written out, so that no crate above proves again what it does.
impl Drop for VariableField {
    fn drop(self) {
        let VariableField { name, value } = self;
        drop(name);
        drop(value);
    }
}

/// An array.
pub struct ArrayField {
    pub shape: ListField<usize>,
    pub elements: Elements,
}

// Written out, so that no crate above proves again what it does.
impl Drop for ArrayField {
    fn drop(self) {
        let ArrayField { shape, elements } = self;
        drop(shape);
        drop(elements);
    }
}

/// The elements of an array in ravel order.
#[derive(Drop)]
pub enum Elements {
    Numbers(ListField<i64>),
    Text(TextField),
}

/// A context.
#[derive(Drop)]
pub enum ContextField {
    /// A typed statement.
    Statement(StatementField),
    /// A standing call.
    Call(CallField),
    /// A text that is executed. It stands in files of version 2 alone.
    Execute(StatementField),
}

/// A typed statement, or a text that is executed, that awaits an answer.
pub struct StatementField {
    /// The statement or the text.
    pub line: TextField,
    pub rest: RestField,
}

// Written out, so that no crate above proves again what it does.
impl Drop for StatementField {
    fn drop(self) {
        let StatementField { line, rest } = self;
        drop(line);
        drop(rest);
    }
}

/// A standing call.
pub struct CallField {
    /// The number of its line.
    pub at: usize,
    pub header: TextField,
    pub lines: ListField<TextField>,
    /// Its result, arguments and locals, in the order of the header.
    pub locals: ListField<LocalField>,
    /// Its line, where that awaits an answer; none where the call is suspended.
    pub rest: Option<RestField>,
}

// Written out, so that no crate above proves again what it does.
impl Drop for CallField {
    fn drop(self) {
        let CallField {
            at: _,
            header,
            lines,
            locals,
            rest,
        } = self;
        drop(header);
        drop(lines);
        drop(locals);
        drop(rest);
    }
}

/// A local name of a standing call, with its value, if it has one.
#[derive(Drop)]
pub struct LocalField {
    pub name: TextField,
    pub value: Option<ArrayField>,
}

/// What is kept of a line that awaits an answer.
pub struct RestField {
    /// A letter for each of its user names.
    pub classes: TextField,
    /// The listing of its instructions.
    pub code: TextField,
    /// How many instructions are done.
    pub done: usize,
    /// The operand stack, its top last.
    pub operands: ListField<OperandField>,
}

// Written out, so that no crate above proves again what it does.
impl Drop for RestField {
    fn drop(self) {
        let RestField {
            classes,
            code,
            done: _,
            operands,
        } = self;
        drop(classes);
        drop(code);
        drop(operands);
    }
}

/// An item of an operand stack.
#[derive(Drop)]
pub enum OperandField {
    Array(ArrayField),
    /// An index list. An empty slot has no array.
    Slots(ListField<Option<ArrayField>>),
}
