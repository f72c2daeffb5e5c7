//! The classes of names.

/// What a user name stands for.
#[derive(Clone, Copy, PartialEq, Eq, Debug)]
pub enum Class {
    /// A variable, a label, a local, or a name that is not bound.
    Variable,
    /// A function without arguments.
    Niladic,
    /// A function with arguments.
    Function,
}
