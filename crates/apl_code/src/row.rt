//! The rows of the phrase table, and the ends of a line.

use apl_symbols::{Name, Operator, Primitive, SystemName};

/// What stands as a function.
#[derive(Clone, Copy, PartialEq, Eq, Hash, Debug)]
pub enum Function {
    Primitive(Primitive),
    Name(Name),
    System(SystemName),
}

/// What is read, assigned to or called without arguments.
#[derive(Clone, Copy, PartialEq, Eq, Hash, Debug)]
pub enum Variable {
    Name(Name),
    System(SystemName),
}

/// A row of the phrase table, with the words of the phrase that it has.
#[derive(Clone, Copy, PartialEq, Eq, Debug)]
pub enum Row {
    /// `( B )`
    Group,
    /// `[ e ; .. ; e ]`, of so many items
    Index(usize),
    /// `V`
    Read(Variable),
    /// `N`
    Call(Variable),
    /// `B K`
    Select,
    /// `F B`
    Monadic(Function),
    /// `F K B`
    MonadicAxis(Function),
    /// `F M B`
    Reduce(Function, Operator),
    /// `F M K B`
    ReduceAxis(Function, Operator),
    /// `B F B`
    Dyadic(Function),
    /// `B F K B`
    DyadicAxis(Function),
    /// `B F D F B`
    Inner(Function, Function),
    /// `B J D F B`
    Outer(Function),
    /// `V ← B`
    Assign(Variable),
    /// `V K ← B`
    AssignIndexed(Variable),
    /// `⎕ ← B`
    Show,
}

/// How a statement ends at which no phrase begins.
#[derive(Clone, Copy, PartialEq, Eq, Debug)]
pub enum Ending {
    /// `→ B`
    Branch,
    /// `→` alone
    Escape,
    /// a value, which is shown
    Shown,
    /// a value whose phrase was an assignment
    Hidden,
    /// nothing is left
    Nothing,
    /// a SYNTAX ERROR
    Fail,
}
