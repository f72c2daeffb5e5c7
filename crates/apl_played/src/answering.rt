//! A call that answers in buffers.
ghost use Rattle.std.specs.Prelude.{◌≡◌, ◌≤◌, length, if◌then◌else◌};
ghost use Rattle.apl_played.specs.Answering.{Answers, has_room, laid, number_in, transcript_in, workspace_in};

use crate::error::PlayError;
use crate::playing::{Played, play};
use std::alloc::Global;

/// The number of a call whose buffers are too small.
const TOO_SMALL: u8 = 9;

/// What a call answers beside what it lays into its buffers.
#[derive(Clone, Copy, Debug, PartialEq, Eq)]
pub struct Answer {
    /// 0 where the lines were played, 9 where a buffer is too small, and else the number of the refusal.
    pub number: u8,
    /// How many bytes the transcript has.
    pub transcript: usize,
    /// How many bytes the file of the workspace has.
    pub workspace: usize,
}

/// The transcript: that of all lines, or of those before one that is refused.
fn transcript_in(outcome: &Result<Played, PlayError>) -> &[u8]
    ensures { result.now ≡ transcript_in outcome.now }
{
    match outcome {
        Ok(played) => played.transcript.as_slice(),
        Err(PlayError::LineTooLong(written) | PlayError::TooManyLines(written)) => {
            written.as_slice()
        }
        Err(PlayError::Workspace(_) | PlayError::Memory) => &[],
    }
}

/// The file of the workspace.
fn workspace_in(outcome: &Result<Played, PlayError>) -> &[u8]
    ensures { result.now ≡ workspace_in outcome.now }
{
    match outcome {
        Ok(played) => played.workspace.as_slice(),
        Err(_) => &[],
    }
}

fn number_in(outcome: &Result<Played, PlayError>) -> u8
    ensures { result ≡ number_in outcome.now }
{
    match outcome {
        Ok(_) => 0,
        Err(error) => error.number(),
    }
}

/// Lays bytes at the start of a buffer.
fn lay(bytes: &[u8], buffer: &mut [u8])
    requires { length bytes.now ≤ length buffer.old }
    ensures { buffer.new ≡ laid bytes.now buffer.old }
{
    let (prefix, _) = buffer.split_at_mut(bytes.len());
    prefix.copy_from_slice(bytes);
}

/// Lays what a call comes to into the buffers, if both have room.
fn lay_outcome(
    outcome: &Result<Played, PlayError>,
    transcript: &mut [u8],
    after: &mut [u8],
) -> Answer
    ensures number { result.number ≡ (if has_room outcome.now transcript.old after.old then number_in outcome.now else 9) }
    ensures transcript { transcript.new ≡ (if has_room outcome.now transcript.old after.old
        then laid (transcript_in outcome.now) transcript.old
        else transcript.old) }
    ensures after { after.new ≡ (if has_room outcome.now transcript.old after.old then laid (workspace_in outcome.now) after.old else after.old) }
    ensures transcript_length { result.transcript ≡ length (transcript_in outcome.now) }
    ensures workspace_length { result.workspace ≡ length (workspace_in outcome.now) }
{
    let (written, saved) = (transcript_in(outcome), workspace_in(outcome));
    let mut number = TOO_SMALL;
    if written.len() <= transcript.len() && saved.len() <= after.len() {
        lay(written, transcript);
        lay(saved, after);
        number = number_in(outcome);
    }
    Answer {
        number,
        transcript: written.len(),
        workspace: saved.len(),
    }
}

/// Plays lines on a workspace, as [`play`] does, and lays the transcript and the file of the workspace after them at the starts of
/// two buffers. The answer tells the sizes of both whether they have room or not. Where one has none, its number is 9 and both
/// buffers are as before: the call may be made again with larger ones, since it depends on its bytes alone. Where lines are
/// refused, the transcript of those before lies in the buffer, and there is no workspace.
pub fn play_into(
    alloc: Global,
    workspace: &[u8],
    lines: &[u8],
    steps: u64,
    transcript: &mut [u8],
    after: &mut [u8],
) -> Answer
    ensures { Answers steps workspace.now lines.now result.number result.transcript result.workspace transcript.old transcript.new after.old after.new }
{
    let outcome = play(alloc, workspace, lines, steps);
    lay_outcome(&outcome, transcript, after)
}
