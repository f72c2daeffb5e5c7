// Lines whose stops are answered.
ghost use Rattle.std.specs.Prelude.{◌≡◌, ◌↔◌, ◌≤◌, ℕ, true, IfOk, OnOk, OnErr, IsErrOf, IsFalse};
ghost use Rattle.apl_machine_state.specs.State.{is_idle, steps, turn};
ghost use Rattle.apl_session.specs.Events.{typed};
ghost use Rattle.apl_resume.specs.Cut.{IsQuietRun, after_stop, cut, cut_steps, resume_line, resumed, stops_in, unstopped};
ghost use Rattle.apl_resume.specs.Law.{IsCut, IsSameRun};
ghost use Rattle.apl_resume.specs.UnderWay.{IsAnswering, IsPartOfRun, IsUnderWay, IsWithin};

use crate::law::{cut_in_single_steps, cut_is_uncut};
use apl_machine::Progress;
use apl_session::{FeedError, Session};
use std::alloc::AllocError;

/// The bytes of the line `→⎕LC`.
const RESUME_LINE: [u8; 8] = [0xE2, 0x86, 0x92, 0xE2, 0x8E, 0x95, 0x4C, 0x43];

/// One step, and whether it came to a stop.
fn step_one(session: &mut Session) -> Result<bool, AllocError>
    ensures ok { OnOk result (session.new ≡ (turn session.old).state) }
    ensures stopped { IfOk result (λ b. b ≡ (turn session.old).stopped) }
    ensures err { OnErr result (session.new ≡ session.old) }
{
    match session.advance(1)? {
        Progress::Stopped => Ok(true),
        _ => Ok(false),
    }
}

/// Answers a stop: the line `→⎕LC`, and two steps.
fn answer(session: &mut Session) -> Result<(), AllocError>
    ensures ok { OnOk result (session.new ≡ resumed session.old) }
    ensures err { OnErr result (IsAnswering session.old session.new) }
{
    if session.feed(&RESUME_LINE).is_err() {
        return Err(AllocError);
    }
    session.advance(2)?;
    Ok(())
}

/// One step, and the answer to its stop. Tells whether it came to a stop.
fn step_on(session: &mut Session) -> Result<bool, AllocError>
    ensures ok { OnOk result (session.new ≡ after_stop (turn session.old)) }
    ensures stopped { IfOk result (λ b. b ≡ (turn session.old).stopped) }
    ensures err { OnErr result (IsWithin session.old session.new) }
{
    let stopped = step_one(session)?;
    if stopped {
        answer(session)?;
    }
    Ok(stopped)
}

/// At most `count` steps, each stop answered, until the session is idle, and how many stops there
/// were.
fn steps_on(session: &mut Session, count: u64) -> Result<u64, AllocError>
    ensures ok { OnOk result (session.new ≡ cut_steps count session.old) }
    ensures stops { IfOk result (λ s. s ≡ stops_in count session.old) }
    ensures err { OnErr result (IsPartOfRun session.old count session.new) }
{
    let mut stops: u64 = 0;
    for _done in 0..count {
        if session.machine().is_idle() {
            return Ok(stops);
        }
        if step_on(session)? {
            stops += 1;
        }
    }
    Ok(stops)
}

/// Types a line and gives it `count` steps and two more for each stop, answers each stop by the line
/// `→⎕LC`, interrupts what still runs then, and tells how many stops there were. It is the run in
/// single steps (clause `single_steps`). Busy exactly where
/// the session runs; it is as before then. Out of memory it stands after the steps that are
/// done.
pub fn resume_all(session: &mut Session, line: &[u8], count: u64) -> Result<u64, FeedError>
    ensures busy { IsErrOf result FeedError.Busy ↔ IsFalse (is_idle session.old) }
    ensures ok { OnOk result (session.new ≡ cut session.old line.now count) }
    ensures stops { IfOk result (λ s. s ≡ stops_in count (typed session.old line.now)) }
    ensures err { OnErr result (IsUnderWay session.old line.now count session.new) }
    ensures single_steps { IfOk result (λ s. IsCut session.old line.now count session.new s) }
    ensures unchanged { IsErrOf result FeedError.Busy → session.new ≡ session.old }
    ensures law { is_idle session.old ≡ true → IsQuietRun count (typed (unstopped session.old) line.now) → IsSameRun session.old line.now count }
{
    cut_is_uncut();
    cut_in_single_steps();
    session.feed(line)?;
    let stops = steps_on(session, count)?;
    session.interrupt()?;
    Ok(stops)
}
