//! Sessions side by side.

use crate::ended::Ended;
use crate::{Input, Output};
use apl_desk::Desk;
use apl_machine::Machine;
use apl_runs::run_desk;
use apl_session::Session;
use std::alloc::{AllocError, Global};

/// How many sessions a desk has.
const SESSIONS: usize = 64;

/// A desk of clear sessions.
fn clear_desk(alloc: Global) -> Result<Desk, AllocError> {
    let mut sessions = Vec::with_capacity(alloc, SESSIONS)?;
    for _ in 0..SESSIONS {
        sessions.push(Session::new(alloc, Machine::new(alloc)))?;
    }
    Ok(Desk::new(sessions))
}

/// Runs the input on a desk of clear sessions.
pub(crate) fn run_sessions(
    alloc: Global,
    input: &mut Input,
    output: &mut Output,
    steps: u64,
) -> Result<(), Ended> {
    let desk = clear_desk(alloc)?;
    run_desk(alloc, desk, input, output, steps)?;
    Ok(())
}
