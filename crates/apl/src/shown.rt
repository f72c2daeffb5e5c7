//! The code of a function, as it is shown.

use crate::Output;
use crate::ended::Ended;
use apl_charset::{CharFault, decode_line};
use apl_devices::write_all;
use apl_listed::code_of;
use apl_machine::Machine;
use apl_runs::{Failed, RunError};
use std::alloc::Global;

/// The listings of a function's lines.
fn listings(alloc: Global, ws: &Machine, function: &str) -> Result<Vec<Vec<u8>>, Ended> {
    let name = match decode_line(alloc, function.as_bytes()) {
        Ok(name) => name,
        Err(CharFault::Memory) => return Err(Ended::Memory),
        Err(_) => return Err(Ended::words(alloc, "no such function")),
    };
    match code_of(alloc, ws, &name)? {
        Some(listings) => Ok(listings),
        None => Err(Ended::words(alloc, "no such function")),
    }
}

/// Writes bytes.
fn put(output: &mut Output, bytes: &[u8]) -> Result<(), Ended> {
    match write_all(output, bytes) {
        Ok(()) => Ok(()),
        Err(Failed) => Err(Ended::from(RunError::Write)),
    }
}

/// Writes the number of each line of a function, and behind it the line's listing.
pub(crate) fn show(
    alloc: Global,
    ws: &Machine,
    function: &str,
    output: &mut Output,
) -> Result<(), Ended> {
    for (index, listing) in listings(alloc, ws, function)?.iter().enumerate() {
        let number = format!(in alloc; "[{}]\n", index + 1).map_err(|_| Ended::Memory)?;
        put(output, number.as_bytes())?;
        put(output, listing.as_slice())?;
    }
    Ok(())
}
