//! What of two workspaces is the same.
ghost use Rattle.std.specs.Prelude.{◌≡◌, ◌<◌, [], IsTrue, slice_index_or, option_copied};

use apl_arrays::Array;
use apl_charset::Ch;
use apl_defn::{Definition, Header};
use apl_machine::{CallPart, ContextPart, FunctionPart, Operand, RestPart, StatementPart};
use apl_symbols::{Class, Name};

/// What can be told from another of its type.
pub trait Same {
    /// Whether the other is the same.
    fn is_same(&self, other: &Self) -> bool
        ensures { IsTrue result → self.now ≡ other.now };
}

/// Whether these are the same, each as its counterpart.
pub fn are_same<T: Same>(some: &[T], others: &[T]) -> bool
    ensures { IsTrue result → some.now ≡ others.now }
{
    let mut rest = some;
    let mut other_rest = others;
    while let [one, behind @ ..] = rest {
        let [other, other_behind @ ..] = other_rest else {
            return false;
        };
        if !one.is_same(other) {
            return false;
        }
        rest = behind;
        other_rest = other_behind;
    }
    other_rest.is_empty()
}

impl<T: Same> Same for Option<T> {
    fn is_same(&self, other: &Option<T>) -> bool {
        match (self, other) {
            (Some(one), Some(other)) => one.is_same(other),
            (None, None) => true,
            _ => false,
        }
    }
}

impl<A: Same, B: Same> Same for (A, B) {
    fn is_same(&self, other: &(A, B)) -> bool {
        self.0.is_same(&other.0) && self.1.is_same(&other.1)
    }
}

impl Same for usize {
    fn is_same(&self, other: &usize) -> bool {
        self == other
    }
}

impl Same for Ch {
    fn is_same(&self, other: &Ch) -> bool {
        self == other
    }
}

impl Same for Name {
    fn is_same(&self, other: &Name) -> bool {
        self == other
    }
}

impl Same for Class {
    fn is_same(&self, other: &Class) -> bool {
        self == other
    }
}

impl Same for Array {
    #[tactic(auto, using(apl_arrays::specs::Equality::array_same))]
    fn is_same(&self, other: &Array) -> bool {
        self == other
    }
}

impl Same for Operand {
    fn is_same(&self, other: &Operand) -> bool {
        match (self, other) {
            (Operand::Value(one), Operand::Value(other)) => one.is_same(other),
            (Operand::Slots(some), Operand::Slots(others)) => {
                are_same(some.as_slice(), others.as_slice())
            }
            _ => false,
        }
    }
}

impl Same for RestPart {
    fn is_same(&self, other: &RestPart) -> bool {
        self.done() == other.done()
            && are_same(self.classes(), other.classes())
            && are_same(self.operands(), other.operands())
    }
}

impl Same for StatementPart {
    fn is_same(&self, other: &StatementPart) -> bool {
        are_same(self.text.as_slice(), other.text.as_slice()) && self.rest.is_same(&other.rest)
    }
}

impl Same for Header {
    fn is_same(&self, other: &Header) -> bool {
        self.result == other.result
            && self.left == other.left
            && self.name == other.name
            && self.right == other.right
            && are_same(self.locals.as_slice(), other.locals.as_slice())
    }
}

/// Whether the lines that follow the first `k` are the same.
fn is_same_line(one: &Definition, other: &Definition, k: usize) -> bool
    requires { k < 999 }
    ensures { IsTrue result → slice_index_or one.now.lines k [] ≡ slice_index_or other.now.lines k [] }
{
    match (one.line(k + 1), other.line(k + 1)) {
        (Some(text), Some(other)) => are_same(text, other),
        _ => false,
    }
}

#[tactic(auto, using(crate::proofs::Lines::same_lines))]
fn have_same_lines(one: &Definition, other: &Definition) -> bool
    ensures { IsTrue result → one.now.lines ≡ other.now.lines }
{
    if one.len() != other.len() {
        return false;
    }
    for k in 0..one.len() {
        if !is_same_line(one, other, k) {
            return false;
        }
    }
    true
}

impl Same for Definition {
    fn is_same(&self, other: &Definition) -> bool {
        self.header().is_same(other.header())
            && are_same(self.labels(), other.labels())
            && have_same_lines(self, other)
    }
}

fn is_same_rest(one: Option<&RestPart>, other: Option<&RestPart>) -> bool
    ensures { IsTrue result → option_copied one.entry ≡ option_copied other.entry }
{
    match (one, other) {
        (Some(one), Some(other)) => one.is_same(other),
        (None, None) => true,
        _ => false,
    }
}

impl Same for CallPart {
    fn is_same(&self, other: &CallPart) -> bool {
        self.at() == other.at()
            && self
                .function()
                .definition()
                .is_same(other.function().definition())
            && are_same(self.locals(), other.locals())
            && is_same_rest(self.rest(), other.rest())
    }
}

impl Same for ContextPart {
    fn is_same(&self, other: &ContextPart) -> bool {
        match (self, other) {
            (ContextPart::Statement(one), ContextPart::Statement(other)) => one.is_same(other),
            (ContextPart::Call(one), ContextPart::Call(other)) => one.is_same(other),
            (ContextPart::Execute(one), ContextPart::Execute(other)) => one.is_same(other),
            _ => false,
        }
    }
}

impl Same for FunctionPart {
    fn is_same(&self, other: &FunctionPart) -> bool {
        are_same(self.stops(), other.stops())
            && are_same(self.traces(), other.traces())
            && self
                .function()
                .definition()
                .is_same(other.function().definition())
    }
}
