//! Phrases, and their kinds.
ghost use Rattle.std.specs.Prelude.{◌≡◌, ◌≤◌, length, reverse, take};
ghost use Rattle.apl_operands.specs.Operands.{unfetched};
ghost use Rattle.apl_phrases.specs.Kinds.{kind_applying, kind_with, row_kind};

use crate::scene::Scene;
use apl_code::{Function, Instr, Row, Source, Variable};
use apl_operands::{Operands, left_of};
use apl_symbols::Primitive;

/// A phrase to which a line comes.
#[derive(Clone, Copy)]
pub struct Phrase<'names, 'line> {
    pub instr: &'line Instr,
    /// Where it takes its operands from.
    pub sources: &'line [Option<Source>],
    pub operands: Operands<'line>,
    /// What it sees beside them.
    pub scene: Scene<'names>,
}

impl<'names, 'line> Phrase<'names, 'line> {
    /// How many operands are left beneath those that it takes.
    #[inline(always)]
    pub fn left(self) -> usize
        ensures within { result ≤ length self.entry.operands.stack.now }
        ensures beneath { unfetched self.entry.instr.now.arguments (reverse self.entry.operands.stack.now) ≡ reverse (take result self.entry.operands.stack.now) }
    {
        left_of(&self.instr.arguments, self.operands.stack)
    }
}

/// The kinds of phrases, by what makes their steps.
#[derive(Clone, Copy, PartialEq, Eq)]
pub enum PhraseKind {
    /// `V`
    Reads,
    /// `( B )`, and `⎕ ← B`
    Passes,
    /// a phrase of primitives, other than `⍎ B`
    Gives,
    /// `⍎ B`
    Executes,
    /// `V ← B`, of a name
    Assigns,
    /// `V K ← B`, of a name
    AssignsAt,
    /// an index list
    Lists,
    /// `N`, `F B` and `B F B`, of a name
    Calls,
    /// a phrase with a system name, other than `V`
    Systems,
}

/// The kind of a phrase that is of this kind with a name.
#[inline(always)]
fn kind_with(kind: PhraseKind, variable: &Variable) -> PhraseKind
    ensures { result ≡ kind_with kind variable.now }
{
    match variable {
        Variable::Name(_) => kind,
        Variable::System(_) => PhraseKind::Systems,
    }
}

/// The kind of a phrase that applies a function.
#[inline(always)]
fn kind_applying(function: &Function) -> PhraseKind
    ensures { result ≡ kind_applying function.now }
{
    match function {
        Function::Name(_) => PhraseKind::Calls,
        Function::System(_) => PhraseKind::Systems,
        Function::Primitive(_) => PhraseKind::Gives,
    }
}

/// The kind of a phrase of this row.
#[inline(always)]
pub fn row_kind(row: &Row) -> PhraseKind
    ensures { result ≡ row_kind row.now }
{
    match row {
        Row::Read(_) => PhraseKind::Reads,
        Row::Group | Row::Show => PhraseKind::Passes,
        Row::Index(_) => PhraseKind::Lists,
        Row::Call(variable) => kind_with(PhraseKind::Calls, variable),
        Row::Monadic(Function::Primitive(Primitive::Execute)) => PhraseKind::Executes,
        Row::Monadic(function) | Row::Dyadic(function) => kind_applying(function),
        Row::Assign(variable) => kind_with(PhraseKind::Assigns, variable),
        Row::AssignIndexed(variable) => kind_with(PhraseKind::AssignsAt, variable),
        _ => PhraseKind::Gives,
    }
}
