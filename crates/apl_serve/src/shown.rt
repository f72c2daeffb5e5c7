//! The trees of what a session tells.
ghost use Rattle.std.specs.Prelude.{◌≡◌, IfOk, OnOk, string_bytes};
ghost use Rattle.apl_charset.specs.Text.{bytes};
ghost use Rattle.serde_json.specs.Data.{Data};
ghost use Rattle.serde_json.specs.View.{members_view, view};
ghost use Rattle.apl_workspace_file.specs.Trees.{whole_tree, number_tree, list_tree};
ghost use Rattle.apl_arrays.specs.Left.{listed};
ghost use Rattle.apl_serve.specs.Trees.{text_tree, kind_word, line_tree, call_tree, named_tree, place_tree, array_tree, items_tree, with_column};

use apl_arrays::{Array, Elements};
use apl_charset::{Ch, Text};
use apl_kept::{Named, Place, Reading, StandingCall};
use apl_machine::{LineKind, OutLine};
use apl_symbols::Name;
use serde_json::{Map, Value, json, put};
use std::alloc::{AllocError, Global};

/// What a tree tells.
pub(crate) trait Shown {
    /// The tree.
    ghost tree: { Self → Data };

    /// Its tree.
    fn show(&self, alloc: Global) -> Result<Value, AllocError>
        ensures { IfOk result (λ v. view v ≡ tree self.now) };
}

impl Shown for usize {
    ghost tree = { whole_tree };

    fn show(&self, _alloc: Global) -> Result<Value, AllocError> {
        Ok(Value::from(*self as u64))
    }
}

impl Shown for i64 {
    ghost tree = { number_tree };

    fn show(&self, _alloc: Global) -> Result<Value, AllocError> {
        Ok(Value::from(*self))
    }
}

/// A text in UTF-8.
fn written(alloc: Global, text: &[Ch]) -> Result<String, AllocError>
    ensures { IfOk result (λ s. string_bytes s ≡ bytes text.now) }
{
    let mut out = String::with_capacity(alloc, text.len())?;
    for c in text {
        out.push(c.code())?;
    }
    Ok(out)
}

/// The tree of a text.
fn show_text(alloc: Global, text: &[Ch]) -> Result<Value, AllocError>
    ensures { IfOk result (λ v. view v ≡ text_tree text.now) }
{
    Ok(Value::String(written(alloc, text)?))
}

/// The trees of a list, in its order.
pub(crate) fn show_list<T: Shown>(alloc: Global, items: &[T]) -> Result<Value, AllocError>
    ensures { IfOk result (λ v. view v ≡ list_tree T.tree items.now) }
{
    let mut trees = Vec::with_capacity(alloc, items.len())?;
    for item in items {
        trees.push(item.show(alloc)?)?;
    }
    Ok(Value::Array(trees))
}

impl Shown for Text {
    ghost tree = { text_tree };

    fn show(&self, alloc: Global) -> Result<Value, AllocError> {
        show_text(alloc, self.as_slice())
    }
}

/// The word of what a line is.
fn kind_word(kind: LineKind) -> &'static str
    ensures { result.now ≡ kind_word kind }
{
    match kind {
        LineKind::Shown => "shown",
        LineKind::Trace => "trace",
        LineKind::Stop => "stop",
        LineKind::Answer => "answer",
        LineKind::Report(..) => "report",
    }
}

impl Shown for OutLine {
    ghost tree = { line_tree };

    fn show(&self, alloc: Global) -> Result<Value, AllocError> {
        let kind = kind_word(self.kind);
        let text = self.text.show(alloc)?;
        json!(in alloc; {"kind": kind, "text": text})
    }
}

impl Shown for Named {
    ghost tree = { named_tree };

    fn show(&self, alloc: Global) -> Result<Value, AllocError> {
        let name = show_text(alloc, self.name.as_slice())?;
        match &self.reading {
            Reading::Function(header) => {
                let header = header.show(alloc)?;
                json!(in alloc; {"header": header, "name": name})
            }
            Reading::Numbers(shape) => {
                let shape = show_list(alloc, shape.as_slice())?;
                json!(in alloc; {"name": name, "shape": shape, "type": "numbers"})
            }
            Reading::Characters(shape) => {
                let shape = show_list(alloc, shape.as_slice())?;
                json!(in alloc; {"name": name, "shape": shape, "type": "characters"})
            }
            Reading::Unset => json!(in alloc; {"name": name}),
        }
    }
}

/// Puts a column, where there is one.
fn put_column(
    alloc: Global,
    members: &mut Map<String, Value>,
    column: Option<usize>,
) -> Result<(), AllocError>
    ensures { OnOk result (members_view members.new.entries ≡ with_column column (members_view members.old.entries)) }
{
    match column {
        Some(column) => put(members, alloc, "column", column.show(alloc)?),
        None => Ok(()),
    }
}

impl Shown for StandingCall {
    ghost tree = { call_tree };

    fn show(&self, alloc: Global) -> Result<Value, AllocError> {
        let mut members = Map::new(alloc);
        put(&mut members, alloc, "line", self.line.show(alloc)?)?;
        let locals = show_list(alloc, self.locals.as_slice())?;
        put(&mut members, alloc, "locals", locals)?;
        let name = show_text(alloc, self.name.as_slice())?;
        put(&mut members, alloc, "name", name)?;
        put(
            &mut members,
            alloc,
            "suspended",
            Value::Bool(self.suspended),
        )?;
        put(&mut members, alloc, "text", self.text.show(alloc)?)?;
        put_column(alloc, &mut members, self.column)?;
        Ok(Value::Object(members))
    }
}

/// The tree of a place at a line of a call.
fn show_call_place(
    alloc: Global,
    name: &Name,
    line: usize,
    column: Option<usize>,
) -> Result<Value, AllocError>
    ensures { IfOk result (λ v. view v ≡ place_tree (Place.Call name.now line column)) }
{
    let mut members = Map::new(alloc);
    put(&mut members, alloc, "line", line.show(alloc)?)?;
    let name = show_text(alloc, name.as_slice())?;
    put(&mut members, alloc, "name", name)?;
    put_column(alloc, &mut members, column)?;
    Ok(Value::Object(members))
}

impl Shown for Place {
    ghost tree = { place_tree };

    fn show(&self, alloc: Global) -> Result<Value, AllocError> {
        match self {
            Place::Typed(column) => json!(in alloc; {"column": *column}),
            Place::Call { name, line, column } => show_call_place(alloc, name, *line, *column),
        }
    }
}

/// An array of this shape and these elements, as in the file of a workspace.
fn show_items(alloc: Global, shape: &[usize], items: Elements<'_>) -> Result<Value, AllocError>
    ensures { IfOk result (λ v. view v ≡ items_tree shape.now (listed items.entry)) }
{
    let shape = show_list(alloc, shape)?;
    match items {
        Elements::Nums(numbers) => {
            let numbers = numbers.wide(alloc)?;
            let numbers = show_list(alloc, numbers.as_slice())?;
            json!(in alloc; {"nums": numbers, "shape": shape})
        }
        Elements::Chars(characters) => {
            let text = show_text(alloc, characters)?;
            json!(in alloc; {"shape": shape, "text": text})
        }
    }
}

impl Shown for Array {
    ghost tree = { array_tree };

    fn show(&self, alloc: Global) -> Result<Value, AllocError> {
        show_items(alloc, self.shape(), self.items())
    }
}
