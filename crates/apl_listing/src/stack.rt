//! What instructions leave on the operand stack.
ghost use Rattle.std.specs.Prelude.{◌≡◌, [], map, take, reverse, IfOk, OnOk};
ghost use Rattle.std.specs.List.{count_by};
ghost use Rattle.apl_listing.specs.Kinds.{is_stacked, is_empty, after, kinds};

use crate::writing::instruction;
use apl_code::{Action, Code, Instr, Source};
use std::alloc::{AllocError, Global};
use std::marker::Model;

/// Of each slot of an index list, from the left, whether it is empty.
#[derive(Drop, Debug)]
pub struct EmptySlots {
    empty: Vec<bool>,
}

impl Model for EmptySlots {
    ghost use Rattle.std.specs.Prelude.{List, Bool};

    ghost Value = { List Bool };

    ghost view = { λ s. s.empty.items };
}

impl EmptySlots {
    /// Of each slot, whether it is empty.
    pub fn as_slice(&self) -> &[bool]
        ensures { result.now ≡ self.now }
    {
        self.empty.as_slice()
    }
}

/// What stands on the operand stack: a value or an index list.
#[derive(Drop, Debug)]
pub enum Kind {
    Value,
    Slots(EmptySlots),
}

/// How many operands come from the stack.
fn stacked(sources: &[Option<Source>]) -> usize
    ensures { result ≡ count_by is_stacked sources.now }
{
    sources
        .iter()
        .filter(|source| matches!(**source, Some(Source::Stack)))
        .count()
}

/// Which slots are empty.
fn empty_slots(alloc: Global, sources: &[Option<Source>]) -> Result<EmptySlots, AllocError>
    ensures { IfOk result (λ s. s ≡ map is_empty sources.now) }
{
    let mut empty = Vec::with_capacity(alloc, sources.len())?;
    for source in sources {
        empty.push(source.is_none())?;
    }
    Ok(EmptySlots { empty })
}

/// Changes the stack, whose top is its last, as an instruction does.
fn step(alloc: Global, stack: &mut Vec<Kind>, instr: &Instr) -> Result<(), AllocError>
    ensures { OnOk result (reverse stack.new.items ≡ after instr.now (reverse stack.old.items)) }
{
    let sources = instr.arguments.as_slice();
    let left = stack.len().saturating_sub(stacked(sources));
    stack.truncate(left);
    match instr.action {
        Action::Box => stack.push(Kind::Slots(empty_slots(alloc, sources)?))?,
        Action::Phrase(_) => stack.push(Kind::Value)?,
        Action::End(_) => {}
    }
    Ok(())
}

/// What the first `count` instructions of a code leave on the operand stack, its top first: the
/// stack starts empty; each instruction takes one for every operand that comes from there, and puts
/// an index list or a value on it, but the last one puts nothing. A `count` past the end is the
/// whole code.
pub fn kinds(alloc: Global, code: &Code, count: usize) -> Result<Vec<Kind>, AllocError>
    ensures { IfOk result (λ v. v.items ≡ kinds [] (take count code.now)) }
{
    let mut stack = Vec::new(alloc);
    for k in 0..count.min(code.len()) {
        step(alloc, &mut stack, instruction(code, k))?;
    }
    stack.reverse();
    Ok(stack)
}
