// A run over the lines of an input.
ghost use Rattle.std.specs.Prelude.{◌≡◌, [], IfOk, IsTrue};
ghost use Rattle.apl_machine_state.specs.State.{is_idle};
ghost use Rattle.apl_session.specs.Defining.{closed};
ghost use Rattle.apl_runs.specs.Manners.{way};
ghost use Rattle.apl_runs.specs.Refusals.{run_number};
ghost use Rattle.apl_runs.specs.Runs.{Ran, reader_failed, writer_failed};
ghost use Rattle.apl_runs.specs.Sessions.{plain, answered};

use crate::input::run_lines;
use crate::manner::Manner;
use apl_devices::{Sink, Source};
use apl_machine::Machine;
use apl_session::Session;
use std::alloc::{AllocError, AllocFailed, Global};
use thiserror::Error;

/// Why a run ended early. The machine or the desk is dropped then.
#[derive(Clone, Copy, Debug, PartialEq, Eq, Error)]
pub enum RunError {
    /// The reader failed. All that the complete lines before write is written.
    #[error("the reader failed")]
    Read = 1,
    /// The writer failed, or took no byte of some. A prefix of what the lines read write is written.
    #[error("the writer failed, or took no byte")]
    Write,
    /// An allocation failed, in reading a line, in running it or in writing its output. A prefix of
    /// what the lines read write is written.
    #[error("out of memory")]
    Memory,
    /// A line has over 2,000 bytes before its line feed, and is read up to the 2,001st. All that the
    /// lines before it write is written.
    #[error("a line has over 2,000 bytes")]
    LineTooLong,
    /// A byte stands behind 1,000,000 lines, and is read. All that the lines write is written.
    #[error("there are over 1,000,000 lines")]
    TooManyLines,
}

impl RunError {
    /// Its number, from 1 to 5.
    pub fn number(self) -> u8
        ensures { result ≡ run_number self }
    {
        self as u8
    }
}

impl From<AllocError> for RunError {
    ghost use Rattle.std.specs.Prelude.{◌≡◌};
    ghost use Rattle.apl_runs.specs.declared.runs.RunError.TheVariants.{Memory};

    ghost from_gives = { λ _ e. e ≡ Memory };

    fn from(_error: AllocError) -> RunError {
        RunError::Memory
    }
}

impl<T: Drop> From<AllocFailed<T>> for RunError {
    ghost use Rattle.std.specs.Prelude.{◌≡◌};
    ghost use Rattle.apl_runs.specs.declared.runs.RunError.TheVariants.{Memory};

    ghost from_gives = { λ _ e. e ≡ Memory };

    fn from(_error: AllocFailed<T>) -> RunError {
        RunError::Memory
    }
}

/// Runs the lines of an input on a machine, which is dropped after an error.
fn run_in<R: Source, W: Sink>(
    alloc: Global,
    ws: Machine,
    reader: &mut R,
    writer: &mut W,
    manner: Manner,
) -> Result<Machine, RunError>
    requires idle { IsTrue (is_idle ws) }
    requires quiet { ws.output ≡ [] }
    ensures ran { IsTrue R.tells → Ran closed (way manner) (closed ws) result (R.left reader.old) (R.left reader.new)
        W.tells (W.written writer.old) (W.written writer.new) }
    ensures idle { IfOk result (λ m. IsTrue (is_idle m)) }
    ensures reader { R.failed reader.new ≡ reader_failed result (R.failed reader.old) }
    ensures writer { W.failed writer.new ≡ writer_failed result (W.failed writer.old) }
{
    let mut session = Session::new(alloc, ws);
    match run_lines(alloc, &manner, &mut session, reader, writer) {
        Ok(()) => Ok(session.into_machine()),
        Err(error) => Err(error),
    }
}

/// Types each line of the input, gives it at most `steps` steps, interrupts what still runs, and
/// writes the output. A line that comes to a stop ends there. Lines end with a line feed, and a
/// carriage return before it is dropped; what follows the last line feed is a line if it isn't
/// empty. A definition that is open at the end is left out. The machine is idle and has no output,
/// by the caller's care, and idle when it is given back. It is dropped after an error:
///
/// - Read where the reader failed. All that the complete lines write is written.
/// - Write where the writer failed or took no byte, Memory where an allocation failed. A prefix of what
///   the lines read write is written. What follows the last line feed is one of them only where the
///   input is at its end.
/// - LineTooLong at the 2,001st byte of a line, TooManyLines at the first byte behind 1,000,000 lines.
///   All that the lines before write is written, and nothing further is read.
pub fn run<R: Source, W: Sink>(
    alloc: Global,
    ws: Machine,
    reader: &mut R,
    writer: &mut W,
    steps: u64,
) -> Result<Machine, RunError>
    requires idle { IsTrue (is_idle ws) }
    requires quiet { ws.output ≡ [] }
    ensures ran { IsTrue R.tells → Ran closed (plain steps) (closed ws) result (R.left reader.old) (R.left reader.new)
        W.tells (W.written writer.old) (W.written writer.new) }
    ensures idle { IfOk result (λ m. IsTrue (is_idle m)) }
    ensures reader { R.failed reader.new ≡ reader_failed result (R.failed reader.old) }
    ensures writer { W.failed writer.new ≡ writer_failed result (W.failed writer.old) }
{
    run_in(alloc, ws, reader, writer, Manner::Plain(steps))
}

/// Types each line of the input, gives it at most `steps` steps and two more for each stop, answers
/// each stop by the line `→⎕LC`, interrupts what still runs, and writes the output, with the reports
/// of the stops. The lines, what the caller owes and what is left are as of [`run`]. The machine is
/// dropped after an error:
///
/// - Read where the reader failed. All that the complete lines write is written.
/// - Write where the writer failed or took no byte, Memory where an allocation failed. A prefix of what
///   the lines read write is written. What follows the last line feed is one of them only where the
///   input is at its end.
/// - LineTooLong at the 2,001st byte of a line, TooManyLines at the first byte behind 1,000,000 lines.
///   All that the lines before write is written, and nothing further is read.
pub fn run_resumed<R: Source, W: Sink>(
    alloc: Global,
    ws: Machine,
    reader: &mut R,
    writer: &mut W,
    steps: u64,
) -> Result<Machine, RunError>
    requires idle { IsTrue (is_idle ws) }
    requires quiet { ws.output ≡ [] }
    ensures ran { IsTrue R.tells → Ran closed (answered steps) (closed ws) result (R.left reader.old) (R.left reader.new)
        W.tells (W.written writer.old) (W.written writer.new) }
    ensures idle { IfOk result (λ m. IsTrue (is_idle m)) }
    ensures reader { R.failed reader.new ≡ reader_failed result (R.failed reader.old) }
    ensures writer { W.failed writer.new ≡ writer_failed result (W.failed writer.old) }
{
    run_in(alloc, ws, reader, writer, Manner::Answered(steps))
}
