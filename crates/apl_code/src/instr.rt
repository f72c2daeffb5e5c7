//! Flat instructions.
ghost use Rattle.std.specs.Prelude.{◌≡◌, IfOk};
ghost use Rattle.apl_code.specs.Taken.{taken_by};

use crate::row::{Ending, Row};
use std::alloc::{AllocError, Global};
use std::marker::Model;

/// Where an instruction takes an operand from.
#[derive(Clone, Copy, PartialEq, Eq, Debug)]
pub enum Source {
    /// The constant of this number in the line, from 0 in the order of the text.
    Constant(usize),
    /// The top of the operand stack.
    Stack,
}

/// What an instruction does.
#[derive(Clone, Copy, PartialEq, Eq, Debug)]
pub enum Action {
    /// Makes an index list.
    Box,
    /// Reduces a phrase of this row.
    Phrase(Row),
    /// Ends the line.
    End(Ending),
}

/// The operands of an instruction from the left. An empty slot of an index list takes nothing.
#[derive(Drop, Debug)]
pub struct Arguments {
    sources: Vec<Option<Source>>,
    /// How many of them are taken from the stack.
    taken: usize,
}

impl Model for Arguments {
    ghost use Rattle.std.specs.Prelude.{List, Option};
    ghost use Rattle.apl_code.specs.declared.instr.Source.{Source};
    ghost use Rattle.std.specs.Prelude.{◌≡◌};
    ghost use Rattle.apl_code.specs.Taken.{taken_by};

    ghost Value = { List (Option Source) };

    ghost view = { λ a. a.sources.items };

    ghost invariant = { λ a. a.taken ≡ taken_by a.sources.items };
}

/// How many of these operands are taken from the stack.
fn taken_by(sources: &[Option<Source>]) -> usize
    ensures { result ≡ taken_by sources.now }
{
    let mut taken = 0;
    for source in sources {
        if let Some(Source::Stack) = source {
            taken += 1;
        }
    }
    taken
}

impl Arguments {
    /// These operands. It takes no memory.
    pub fn new(sources: Vec<Option<Source>>) -> Self
        ensures { result ≡ sources.items }
    {
        let taken = taken_by(sources.as_slice());
        Arguments { sources, taken }
    }

    /// How many of them are taken from the stack.
    #[inline]
    pub fn taken(&self) -> usize
        ensures { result ≡ taken_by self.now }
    {
        self.taken
    }

    /// The operands: `None` is an empty slot.
    pub fn as_slice(&self) -> &[Option<Source>]
        ensures { result.now ≡ self.now }
    {
        self.sources.as_slice()
    }

    /// Equal operands.
    pub fn copy(&self, alloc: Global) -> Result<Arguments, AllocError>
        ensures { IfOk result (λ v. v ≡ self.now) }
    {
        Ok(Arguments {
            sources: Vec::from_slice(alloc, self.sources.as_slice())?,
            taken: self.taken,
        })
    }
}

/// A flat instruction: what it does, with which operands, and the column of its place in the
/// text, counted from 1 (0 for the end of a line that has none).
#[derive(Drop, Debug)]
pub struct Instr {
    pub action: Action,
    pub arguments: Arguments,
    pub at: usize,
}

impl Instr {
    /// An equal instruction.
    pub fn copy(&self, alloc: Global) -> Result<Instr, AllocError>
        ensures { IfOk result (λ v. v ≡ self.now) }
    {
        Ok(Instr {
            action: self.action,
            arguments: self.arguments.copy(alloc)?,
            at: self.at,
        })
    }
}
