//! Requests that change a session.
ghost use Rattle.std.specs.Prelude.{◌≡◌, ◌≤◌, IfErr, IfOk, MatchResult};
ghost use Rattle.serde_json.specs.Data.{depth};
ghost use Rattle.serde_json.specs.Read.{max_depth};
ghost use Rattle.serde_json.specs.View.{view};
ghost use Rattle.apl_machine_state.specs.State.{clear};
ghost use Rattle.apl_kept.specs.Keeping.{BeginsWith};
ghost use Rattle.apl_serve.specs.Answers.{Advances, Interrupts, IsOpened, Opens, Tells, Types};
ghost use Rattle.apl_serve.specs.inside.Parts.{IsClosed, IsShut};

use crate::answer::line_of;
use crate::error::Refusal;
use crate::telling::told;
use apl_kept::{Kept, KeptError, open};
use apl_session::Bytes;
use apl_workspace::LoadError;
use serde_json::Value;
use std::alloc::{AllocError, Global};

/// Tells how a session stands, and how many steps were made, where some were asked for; what it has written is taken then. Answer: there
/// is no memory for that.
fn tell(alloc: Global, kept: &mut Kept, steps: Option<u64>) -> Result<Bytes, Refusal>
    ensures { Tells steps kept.old result kept.new }
{
    match told(alloc, kept, steps) {
        Ok(text) => {
            drop(kept.take_output());
            Ok(text)
        }
        Err(AllocError) => Err(Refusal::Answer),
    }
}

/// Types a line.
pub(crate) fn type_line(alloc: Global, kept: &mut Kept, line: &str) -> Result<Bytes, Refusal>
    ensures { Types line.now kept.old result kept.new }
{
    match kept.type_line(line.as_bytes()) {
        Ok(()) => tell(alloc, kept, None),
        Err(KeptError::LineTooLong | KeptError::LineFeed) => Err(Refusal::Line),
        Err(KeptError::Running) => Err(Refusal::Running),
        Err(KeptError::Memory) => Err(Refusal::Memory),
    }
}

/// Makes at most so many steps.
pub(crate) fn advance(alloc: Global, kept: &mut Kept, count: u64) -> Result<Bytes, Refusal>
    ensures { Advances count kept.old result kept.new }
{
    match kept.make_steps(count) {
        Ok(made) => tell(alloc, kept, Some(made.steps)),
        Err(AllocError) => Err(Refusal::Memory),
    }
}

/// Abandons what runs.
pub(crate) fn interrupt(alloc: Global, kept: &mut Kept) -> Result<Bytes, Refusal>
    ensures { Interrupts kept.old result kept.new }
{
    match kept.interrupt() {
        Ok(()) => tell(alloc, kept, None),
        Err(AllocError) => Err(Refusal::Memory),
    }
}

/// A clear session.
fn open_clear(alloc: Global) -> Result<Kept, Refusal>
    ensures { MatchResult result (λ k. k ≡ clear) (λ e. e ≡ Refusal.Memory) }
{
    match open(alloc, &[]) {
        Ok(kept) => Ok(kept),
        Err(_) => Err(Refusal::Memory),
    }
}

/// A session on the workspace of a file.
fn open_file(alloc: Global, file: &[u8]) -> Result<Kept, Refusal>
    ensures opened { IfOk result (λ k. BeginsWith file.now k) }
    ensures refused { IfErr result (λ e. IsShut file.now e) }
{
    match open(alloc, file) {
        Ok(kept) => Ok(kept),
        Err(LoadError::Memory) => Err(Refusal::Memory),
        Err(error) => Err(Refusal::Load(error)),
    }
}

/// A session on the workspace of a tree, or on a clear one where that is null.
fn open_tree(alloc: Global, tree: &Value) -> Result<Kept, Refusal>
    requires { depth (view tree.now) ≤ max_depth }
    ensures opened { IfOk result (λ k. IsOpened (view tree.now) k) }
    ensures refused { IfErr result (λ e. IsClosed (view tree.now) e) }
{
    if tree.is_null() {
        return open_clear(alloc);
    }
    let file = tree.to_vec(alloc)?;
    open_file(alloc, &file)
}

/// Begins a session anew, on the workspace of a tree, or on a clear one where that is null.
pub(crate) fn open_anew(alloc: Global, kept: &mut Kept, tree: &Value) -> Result<Bytes, Refusal>
    requires { depth (view tree.now) ≤ max_depth }
    ensures { Opens (view tree.now) kept.old result kept.new }
{
    *kept = open_tree(alloc, tree)?;
    tell(alloc, kept, None)
}
