//! How another program holds a session: it types lines to it, keeps its workspace as bytes, and goes on with that. docs/EMBEDDING.md shows it.
#![tactic(auto)]

use apl_charset::encode;
use apl_machine::Machine;
use apl_session::{Bytes, Event, Session};
use apl_workspace::{load, save};
use std::alloc::{AllocError, Global};
use std::io::Write;

/// A line is typed, and makes at most 1,000 steps.
fn typed(alloc: Global, line: &str) -> Result<[Event; 2], AllocError> {
    let bytes = Vec::from_slice(alloc, line.as_bytes())?;
    Ok([Event::Line(Bytes::new(bytes)), Event::Steps(1000)])
}

/// The workspace of a session in which a line was typed.
fn kept(alloc: Global) -> anyhow::Result<Vec<u8>> {
    let mut session = Session::new(alloc, Machine::new(alloc));
    session.drive(&typed(alloc, "TOTAL←+/⍳4")?)?;
    let workspace = save(alloc, session.machine())?;
    Ok(workspace)
}

fn main(rt: HostRuntime) -> anyhow::Result<()> {
    let alloc = rt.alloc();
    let workspace = kept(alloc)?;
    let mut session = Session::new(alloc, load(alloc, &workspace)?);
    session.drive(&typed(alloc, "2×TOTAL")?)?;
    for line in session.take_output() {
        let mut text = encode(alloc, line.text.as_slice())?;
        text.push(b'\n')?;
        rt.stdout().write_all(&text)?;
    }
    Ok(())
}
