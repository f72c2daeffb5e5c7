//! What names stand for, and how functions are written.
ghost use Rattle.std.specs.Prelude.{◌≡◌, ◌≤◌, length, option_copied, option_map, IfOk};
ghost use Rattle.apl_defn.specs.Definitions.{line_of};
ghost use Rattle.apl_kept.specs.Names.{function_named, function_reading, names_of, reading_now, source_of, value_reading};

use apl_arrays::Array;
use apl_charset::{Ch, Text};
use apl_defn::{Definition, canonical};
use apl_machine::Machine;
use apl_symbols::{Class, Name};
use std::alloc::{AllocError, Global};
use std::marker::Model;

/// The lengths of the axes of an array. Contracts see their list.
#[derive(Drop, Debug)]
pub struct Shape {
    lengths: Vec<usize>,
}

impl Model for Shape {
    ghost use Rattle.std.specs.Prelude.{List, ℕ};

    ghost Value = { List ℕ };

    ghost view = { λ s. s.lengths.items };
}

impl Shape {
    /// The lengths, first axis to last.
    pub fn as_slice(&self) -> &[usize]
        ensures { result.now ≡ self.now }
    {
        self.lengths.as_slice()
    }
}

/// What is read under a name.
#[derive(Drop, Debug)]
pub enum Reading {
    /// A function, by its header as a listing shows it.
    Function(Text),
    /// A variable that holds numbers, by its shape.
    Numbers(Shape),
    /// A variable that holds characters, by its shape.
    Characters(Shape),
    /// An unset local, or a label.
    Unset,
}

/// A name, and what is read under it.
#[derive(Drop, Debug)]
pub struct Named {
    pub name: Name,
    pub reading: Reading,
}

/// What is read under a name that has this value, if it has one.
pub(crate) fn value_reading(alloc: Global, value: Option<&Array>) -> Result<Reading, AllocError>
    ensures { IfOk result (λ r. r ≡ value_reading (option_copied value.entry)) }
{
    let Some(array) = value else {
        return Ok(Reading::Unset);
    };
    let shape = Shape {
        lengths: Vec::from_slice(alloc, array.shape())?,
    };
    if array.items().is_numeric() {
        Ok(Reading::Numbers(shape))
    } else {
        Ok(Reading::Characters(shape))
    }
}

/// What is read under a name that is this function's, if it is one's.
fn function_reading(alloc: Global, function: Option<&Definition>) -> Result<Reading, AllocError>
    ensures { IfOk result (λ r. r ≡ function_reading (option_copied function.entry)) }
{
    let Some(definition) = function else {
        return Ok(Reading::Unset);
    };
    Ok(Reading::Function(canonical(alloc, definition.header())?))
}

/// What a statement that begins now reads under a name.
#[tactic(auto, using(crate::proofs::Readings::variable_read, crate::proofs::Readings::function_read))]
fn reading_now(alloc: Global, machine: &Machine, name: &Name) -> Result<Reading, AllocError>
    ensures { IfOk result (λ r. r ≡ reading_now machine.now name.now) }
{
    machine.keeps_order();
    match machine.class_of(name) {
        Class::Variable => value_reading(alloc, machine.value(name)),
        Class::Niladic | Class::Function => function_reading(alloc, machine.definition(name)),
    }
}

/// The global names, ascending, with what a statement that begins now reads under each.
pub(crate) fn names_in(alloc: Global, machine: &Machine) -> Result<Vec<Named>, AllocError>
    ensures { IfOk result (λ names. names.items ≡ names_of machine.now) }
{
    let globals = machine.globals()?;
    let mut names = Vec::with_capacity(alloc, globals.len())?;
    for (name, _) in &globals {
        names.push(Named {
            name: *name,
            reading: reading_now(alloc, machine, name)?,
        })?;
    }
    Ok(names)
}

/// The line of that number, from 1.
fn line_at(alloc: Global, definition: &Definition, number: usize) -> Result<Text, AllocError>
    requires { (1 ≤ number) × (number ≤ length definition.now.lines) }
    ensures { IfOk result (λ line. line ≡ line_of definition.now number) }
{
    let Some(line) = definition.line(number) else {
        unreachable!()
    };
    Ok(Text::new(Vec::from_slice(alloc, line)?))
}

/// A function as it is written: its header, and its lines.
fn source(alloc: Global, definition: &Definition) -> Result<Vec<Text>, AllocError>
    ensures { IfOk result (λ lines. lines.items ≡ source_of definition.now) }
{
    let mut lines = Vec::with_capacity(alloc, definition.len() + 1)?;
    lines.push(canonical(alloc, definition.header())?)?;
    for i in 0..definition.len() {
        lines.push(line_at(alloc, definition, i + 1)?)?;
    }
    Ok(lines)
}

/// The source of the global function that a word names. There is none where it names no function.
pub(crate) fn source_named(
    alloc: Global,
    machine: &Machine,
    word: &[Ch],
) -> Result<Option<Vec<Text>>, AllocError>
    ensures { IfOk result (λ found. option_map (λ lines. lines.items) found ≡ option_map source_of (function_named machine.now word.now)) }
{
    let Some(name) = Name::new(word) else {
        return Ok(None);
    };
    let Some(definition) = machine.definition(&name) else {
        return Ok(None);
    };
    Ok(Some(source(alloc, definition)?))
}
