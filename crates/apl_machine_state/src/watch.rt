//! Which vector of a function is meant.

/// A vector of line numbers that a function has.
#[derive(Clone, Copy, PartialEq, Eq, Debug)]
pub enum Watch {
    /// The lines that a run stops before.
    Stop,
    /// The lines that write what they came to.
    Trace,
}
