//! What a machine writes and answers.

use apl_charset::Text;
use apl_faults::Fault;

/// What a fault is blamed on. Columns count from 1.
#[derive(Clone, Copy, PartialEq, Eq, Debug)]
pub enum Blame {
    /// Nothing: the report is the fault's name alone.
    Nothing,
    /// A column of the typed text.
    Typed(usize),
    /// A column of the line at which the newest call is suspended.
    Call(usize),
}

/// What a line of output is.
#[derive(Clone, Copy, PartialEq, Eq, Debug)]
pub enum LineKind {
    /// A value that a statement shows.
    Shown,
    /// What a line of a function whose number is in its trace vector came to.
    Trace,
    /// The report of a stop before a line.
    Stop,
    /// An answer to a command, or to a line of a definition.
    Answer,
    /// A line of the report of a fault, and what that is blamed on.
    Report(Fault, Blame),
}

/// A line of output, and what it is.
#[derive(Drop)]
pub struct OutLine {
    pub text: Text,
    pub kind: LineKind,
}

/// Where a machine stands after a step.
#[derive(Clone, Copy, PartialEq, Eq, Debug)]
pub enum Progress {
    /// Nothing runs.
    Idle,
    /// The step came to a stop before a line; nothing runs.
    Stopped,
    /// The step ended a line or branched, and the machine runs.
    LineEnd,
    /// The machine runs, in the midst of a line.
    Running,
}
