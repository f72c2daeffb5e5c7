//! What phrases with system names do.

use apl_arrays::{Array, Origin};
use apl_machine_state::Watch;
use apl_symbols::Name;

/// What a phrase with a system name does.
#[derive(Drop)]
pub enum Effect {
    /// It gives this.
    Gives(Array),
    /// It gives the line numbers of the standing calls.
    GivesLineNumbers,
    /// It gives the stop or trace vector that a function has, which is replaced where there is a new one.
    Asks(Watch, Name, Option<Vec<usize>>),
    /// It gives the value of its last operand, and the name has this value from now on.
    Assigns(Name, Array),
    /// It gives the value of its last operand, and the workspace has this index origin from now on.
    SetsOrigin(Origin),
}
