// The lines of an input, which a listener does.
ghost use Rattle.std.specs.Prelude.{◌≡◌, IsTrue, OnOk};
ghost use Rattle.apl_runs.specs.Runs.{EndsRun, Writes, reader_failed, writer_failed};
ghost use Rattle.apl_runs.specs.Transcript.{last_line, after_lines};
ghost use Rattle.apl_runs.specs.Ways.{IsInOrder};

use crate::lines::{read_end, read_line};
use crate::listener::Listener;
use crate::runs::RunError;
use apl_devices::{Sink, Source};
use std::alloc::Global;

/// The most lines of a run.
const MAX_LINES: u32 = 1_000_000;

/// Does what follows the last line feed, if there is anything, and then what the end of the input
/// asks for.
fn run_last<L: Listener, W: Sink>(
    alloc: Global,
    listener: &L,
    on: &mut L::On,
    line: &[u8],
    writer: &mut W,
) -> Result<(), RunError>
    requires in_order { IsInOrder (L.way listener.now) }
    requires between { L.IsBetweenLines on.old }
    ensures state { OnOk result (on.new ≡
        (L.way listener.now).quiet ((L.way listener.now).at_end (after_lines (L.way listener.now) on.old (last_line line.now)))) }
    ensures wrote { Writes result ((L.way listener.now).unwritten ((L.way listener.now).at_end (after_lines (L.way listener.now) on.old (last_line line.now))))
        W.tells (W.written writer.old) (W.written writer.new) }
    ensures between { OnOk result (L.IsBetweenLines on.new) }
    ensures writer { W.failed writer.new ≡ writer_failed result (W.failed writer.old) }
{
    if line.is_empty() {
        return listener.end(alloc, on, writer);
    }
    listener.hear(alloc, on, line, writer)?;
    listener.end(alloc, on, writer)
}

/// Does the lines of the input and what its end asks for. Each line is read into the buffer.
fn read_lines<L: Listener, R: Source, W: Sink>(
    alloc: Global,
    listener: &L,
    on: &mut L::On,
    line: &mut Vec<u8>,
    reader: &mut R,
    writer: &mut W,
) -> Result<(), RunError>
    requires in_order { IsInOrder (L.way listener.now) }
    requires quiet { (L.way listener.now).quiet on.old ≡ on.old }
    requires between { L.IsBetweenLines on.old }
    ensures ran { IsTrue R.tells →
        EndsRun result (L.way listener.now) on.old on.new (R.left reader.old) (R.left reader.new) W.tells (W.written writer.old) (W.written writer.new) }
    ensures between { OnOk result (L.IsBetweenLines on.new) }
    ensures reader { R.failed reader.new ≡ reader_failed result (R.failed reader.old) }
    ensures writer { W.failed writer.new ≡ writer_failed result (W.failed writer.old) }
{
    for _ in 0..MAX_LINES {
        if !read_line(reader, line)? {
            return run_last(alloc, listener, on, line, writer);
        }
        listener.hear(alloc, on, line, writer)?;
    }
    read_end(reader)?;
    listener.end(alloc, on, writer)
}

/// Does the lines of the input and what its end asks for, on what stands ready: nothing of it stands
/// to be written.
pub fn run_lines<L: Listener, R: Source, W: Sink>(
    alloc: Global,
    listener: &L,
    on: &mut L::On,
    reader: &mut R,
    writer: &mut W,
) -> Result<(), RunError>
    requires in_order { IsInOrder (L.way listener.now) }
    requires quiet { (L.way listener.now).quiet on.old ≡ on.old }
    requires between { L.IsBetweenLines on.old }
    ensures ran { IsTrue R.tells →
        EndsRun result (L.way listener.now) on.old on.new (R.left reader.old) (R.left reader.new) W.tells (W.written writer.old) (W.written writer.new) }
    ensures between { OnOk result (L.IsBetweenLines on.new) }
    ensures reader { R.failed reader.new ≡ reader_failed result (R.failed reader.old) }
    ensures writer { W.failed writer.new ≡ writer_failed result (W.failed writer.old) }
{
    let mut line = Vec::new(alloc);
    read_lines(alloc, listener, on, &mut line, reader, writer)
}
