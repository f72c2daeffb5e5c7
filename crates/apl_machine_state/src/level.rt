//! Standing calls, as a state indicator shows them.

use apl_symbols::Name;

/// A standing call: its function's name, the number of its line, and whether it is suspended before
/// that line.
#[derive(Clone, Copy, PartialEq, Eq, Debug)]
pub struct Level {
    pub name: Name,
    pub line: usize,
    pub suspended: bool,
}
