// How a line is done on a session.
ghost use Rattle.std.specs.Prelude.{◌≡◌, IsTrue, OnOk};
ghost use Rattle.apl_machine_state.specs.State.{is_idle};
ghost use Rattle.apl_runs.specs.Manners.{does};
ghost use Rattle.apl_runs.specs.Output.{written, silent};
ghost use Rattle.apl_runs.specs.Runs.{Writes, writer_failed};
ghost use Rattle.apl_runs.specs.Sessions.{plain_line};

use crate::law::lines_leave_idle;
use crate::lines::write_lines;
use crate::listener::Listener;
use crate::runs::RunError;
use apl_devices::Sink;
use apl_resume::resume_all;
use apl_session::{FeedError, Session};
use std::alloc::{AllocError, Global};

/// How each line of a run is done, with at most so many steps.
#[derive(Clone, Copy)]
pub enum Manner {
    /// It is typed, makes its steps, and is interrupted if it still runs.
    Plain(u64),
    /// The same, but each stop is answered by the line `→⎕LC`, with two steps more.
    Answered(u64),
}

/// Types a line, makes its steps, and interrupts what still runs.
fn type_line(session: &mut Session, line: &[u8], steps: u64) -> Result<(), AllocError>
    requires { IsTrue (is_idle session.old) }
    ensures { OnOk result (session.new ≡ plain_line steps session.old line.now) }
{
    match session.feed(line) {
        Ok(()) => {}
        Err(FeedError::Busy) => unreachable!(),
        Err(FeedError::Memory) => return Err(AllocError),
    }
    session.advance(steps)?;
    session.interrupt()
}

/// Does a line, which leaves nothing running.
fn do_line(session: &mut Session, line: &[u8], manner: Manner) -> Result<(), AllocError>
    requires { IsTrue (is_idle session.old) }
    ensures done { OnOk result (session.new ≡ does manner session.old line.now) }
    ensures idle { OnOk result (IsTrue (is_idle session.new)) }
{
    // By these laws a line leaves nothing running.
    session.keeps_order();
    lines_leave_idle();
    match manner {
        Manner::Plain(steps) => type_line(session, line, steps),
        Manner::Answered(steps) => match resume_all(session, line, steps) {
            Ok(_) => Ok(()),
            Err(FeedError::Busy) => unreachable!(),
            Err(FeedError::Memory) => Err(AllocError),
        },
    }
}

/// Writes the output of a session. After an error a prefix of it is written.
#[tactic(auto, using(crate::proofs::Writing::unlabelled))]
fn write_output<W: Sink>(
    alloc: Global,
    session: &mut Session,
    writer: &mut W,
) -> Result<(), RunError>
    ensures state { session.new ≡ silent session.old }
    ensures wrote { Writes result (written session.old.output) W.tells (W.written writer.old) (W.written writer.new) }
    ensures writer { W.failed writer.new ≡ writer_failed result (W.failed writer.old) }
{
    let lines = session.take_output();
    write_lines(alloc, writer, "", &lines)
}

impl Listener for Manner {
    ghost use Rattle.std.specs.Prelude.{IsTrue};
    ghost use Rattle.apl_machine_state.specs.State.{is_idle};
    ghost use Rattle.apl_runs.specs.Manners.{way};

    type On = Session;

    ghost way = { way };

    ghost IsBetweenLines = { λ s. IsTrue (is_idle s) };

    fn hear<W: Sink>(
        &self,
        alloc: Global,
        session: &mut Session,
        line: &[u8],
        writer: &mut W,
    ) -> Result<(), RunError> {
        do_line(session, line, *self)?;
        write_output(alloc, session, writer)
    }

    fn end<W: Sink>(
        &self,
        alloc: Global,
        session: &mut Session,
        writer: &mut W,
    ) -> Result<(), RunError> {
        write_output(alloc, session, writer)
    }
}
