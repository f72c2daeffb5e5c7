// A run over the sessions of a desk.
ghost use Rattle.std.specs.Prelude.{◌≡◌, IsTrue};
ghost use Rattle.apl_runs.specs.Rounds.{board, rounds};
ghost use Rattle.apl_runs.specs.Runs.{Ran, reader_failed, writer_failed};

use crate::input::run_lines;
use crate::rounds::{Board, Rounds};
use crate::runs::RunError;
use apl_desk::Desk;
use apl_devices::{Sink, Source};
use std::alloc::Global;

/// Types each line of the input to the session that it is for, and gives the desk back. A line is the
/// number of a session, a blank, and what is typed, which may be empty; the number is decimal, below
/// `len`, and without a leading zero. A line without such a number is answered by the line
/// `NO SESSION`. One for a session that runs is lost, and answered by its number, a blank and `BUSY`.
/// After each line every session that runs makes at most `steps` steps, and what it has to say is
/// written, by ascending number, each line behind its session's number and a blank. At the end what
/// still runs is interrupted and written likewise. Lines end as they do in [`run`](crate::run). The
/// desk is dropped after an error:
///
/// - Read where the reader failed. All that the complete lines write is written.
/// - Write where the writer failed or took no byte, Memory where an allocation failed. A prefix of what
///   the lines read write is written. What follows the last line feed is one of them, and the end
///   writes, only where the input is at its end.
/// - LineTooLong at the 2,001st byte of a line, TooManyLines at the first byte behind 1,000,000 lines.
///   All that the lines before write is written, and nothing further is read.
pub fn run_desk<R: Source, W: Sink>(
    alloc: Global,
    desk: Desk,
    reader: &mut R,
    writer: &mut W,
    steps: u64,
) -> Result<Desk, RunError>
    ensures ran { IsTrue R.tells → Ran (λ b. b.sessions) (rounds steps) (board desk) result (R.left reader.old) (R.left reader.new)
        W.tells (W.written writer.old) (W.written writer.new) }
    ensures reader { R.failed reader.new ≡ reader_failed result (R.failed reader.old) }
    ensures writer { W.failed writer.new ≡ writer_failed result (W.failed writer.old) }
{
    let mut board = Board::new(desk);
    match run_lines(alloc, &Rounds { steps }, &mut board, reader, writer) {
        Ok(()) => Ok(board.into_desk()),
        Err(error) => Err(error),
    }
}
