//! Lines are played on a workspace.
ghost use Rattle.std.specs.Prelude.{◌≡◌, [], IfErr, IfOk, IsTrue, MatchResult};
ghost use Rattle.apl_machine_state.specs.State.{State, is_idle};
ghost use Rattle.apl_savable.specs.Savable.{IsSavable};
ghost use Rattle.apl_workspace.specs.Saved.{IsLoaded, IsSavedAs, settled};
ghost use Rattle.apl_played.specs.Playing.{BeginsWith, IsUnbegun, IsUnplayed, Plays, Runs, StopsFrom};
ghost use Rattle.apl_played.specs.declared.error.PlayError.TheVariants as refusal;

use crate::error::PlayError;
use crate::law::lines_keep_savable;
use crate::memory::{Input, Output};
use apl_machine::Machine;
use apl_runs::{RunError, run};
use apl_workspace::{SaveError, load, save};
use std::alloc::Global;

/// What lines give that were played on a workspace.
#[derive(Drop, Debug)]
pub struct Played {
    /// What they write, in UTF-8, each line with its line feed.
    pub transcript: Vec<u8>,
    /// The file of the workspace after them.
    pub workspace: Vec<u8>,
}

/// The machine of a workspace file, or a clear one where no bytes are given.
fn begin(alloc: Global, workspace: &[u8]) -> Result<Machine, PlayError>
    ensures begun { IfOk result (λ m. BeginsWith workspace.now m) }
    ensures idle { IfOk result (λ m. IsTrue (is_idle m)) }
    ensures quiet { IfOk result (λ m. m.output ≡ []) }
    ensures refused { IfErr result (λ e. IsUnbegun workspace.now e) }
    ensures complete { (s : State) → BeginsWith workspace.now s → MatchResult result (λ m. m ≡ s) (λ e. e ≡ refusal.Memory) }
{
    if workspace.is_empty() {
        return Ok(Machine::new(alloc));
    }
    Ok(load(alloc, workspace)?)
}

/// Runs the lines on an idle machine without output, and gives the machine after them with their transcript.
fn run_lines(
    alloc: Global,
    machine: Machine,
    lines: &[u8],
    steps: u64,
) -> Result<(Machine, Vec<u8>), PlayError>
    requires idle { IsTrue (is_idle machine) }
    requires quiet { machine.output ≡ [] }
    ensures ran { IfOk result (λ r. Runs steps machine lines.now r.0 r.1.items) }
    ensures stopped { IfErr result (λ e. StopsFrom steps machine lines.now e) }
{
    machine.opens_no_definition();
    let mut input = Input::new(lines);
    let mut output = Output::new(alloc);
    match run(alloc, machine, &mut input, &mut output, steps) {
        Ok(after) => Ok((after, output.into_bytes())),
        Err(RunError::LineTooLong) => Err(PlayError::LineTooLong(output.into_bytes())),
        Err(RunError::TooManyLines) => Err(PlayError::TooManyLines(output.into_bytes())),
        // The output fails only out of memory, and the input never.
        Err(RunError::Write | RunError::Memory | RunError::Read) => Err(PlayError::Memory),
    }
}

/// The file of an idle machine to which a session came.
fn file_of(alloc: Global, machine: &Machine) -> Result<Vec<u8>, PlayError>
    requires idle { IsTrue (is_idle machine.now) }
    requires savable { IsSavable machine.now }
    ensures saved { IfOk result (λ b. IsSavedAs b.items machine.now) }
    ensures again { IfOk result (λ b. IsLoaded b.items (settled machine.now)) }
    ensures memory { IfErr result (λ e. e ≡ refusal.Memory) }
{
    match save(alloc, machine) {
        Ok(bytes) => Ok(bytes),
        Err(SaveError::Memory) => Err(PlayError::Memory),
        Err(SaveError::Running) => unreachable!(),
    }
}

/// Plays lines on the workspace of a file, or on a clear one where no bytes are given: each line is typed, gets at most `steps`
/// steps, and is interrupted if it still runs then. Lines end as those of [`apl_runs::run`] do. It gives their transcript and the
/// file of the workspace after them, with all that is half done; a definition that is open at the end is left out. The same bytes
/// give the same again, and nothing is kept beside what is given. Errors, the first of these:
///
/// - Workspace where the bytes are no workspace's: as [`apl_workspace::load`] says.
/// - LineTooLong at the 2,001st byte of a line, TooManyLines at the first byte behind 1,000,000 lines, with the transcript of the
///   complete lines before.
/// - Memory, at any time: it has run out.
pub fn play(alloc: Global, workspace: &[u8], lines: &[u8], steps: u64) -> Result<Played, PlayError>
    ensures played { IfOk result (λ p. (s : State) × BeginsWith workspace.now s × Plays steps s lines.now p) }
    ensures refused { IfErr result (λ e. IsUnplayed steps workspace.now lines.now e) }
    // Bytes that stand for a state stand for no other, and are refused for nothing but the lines.
    ensures complete { (s : State) → BeginsWith workspace.now s → MatchResult result (λ p. Plays steps s lines.now p) (λ e. StopsFrom steps s lines.now e) }
{
    lines_keep_savable();
    let before = begin(alloc, workspace)?;
    let (after, transcript) = run_lines(alloc, before, lines, steps)?;
    let workspace = file_of(alloc, &after)?;
    Ok(Played {
        transcript,
        workspace,
    })
}
