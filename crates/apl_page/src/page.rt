//! A session with what it has written and nobody has taken.
ghost use Rattle.std.specs.Prelude.{◌≡◌, ◌≤◌, [], drop, length, min, take, IfErr, IfOk, MatchResult, OnErr, OnOk};
ghost use Rattle.apl_machine_state.specs.State.{State};
ghost use Rattle.apl_kept.specs.Keeping.{BeginsWith};
ghost use Rattle.apl_workspace.specs.Refusals.{IsUnloaded};
ghost use Rattle.apl_workspace.specs.declared.error.LoadError.TheVariants as load_refusal;
ghost use Rattle.apl_page.specs.Answers.{laid};
ghost use Rattle.apl_page.specs.Places.{begun, gathered_of, without_leading};

use crate::giving::lay_prefix;
use crate::spelling::spelled_output;
use apl_kept::{Kept, open};
use apl_workspace::LoadError;
use std::alloc::{AllocError, Global};
use std::marker::Model;

/// A session with the bytes that were spelled of what it wrote, and that nobody has taken.
#[derive(Drop)]
pub struct Page {
    pub(crate) alloc: Global,
    pub(crate) kept: Kept,
    unsaid: Vec<u8>,
}

impl Model for Page {
    ghost use Rattle.apl_page.specs.Places.{Keeping};

    ghost Value = { Keeping };

    ghost view = { λ p. record { state = p.kept; unsaid = p.unsaid.items } };
}

/// A session on a workspace, as [`apl_kept::open`] opens it, of which no bytes wait.
pub(crate) fn open_page(alloc: Global, workspace: &[u8]) -> Result<Page, LoadError>
    ensures opened { IfOk result (λ p. BeginsWith workspace.now p.state) }
    ensures quiet { IfOk result (λ p. p.unsaid ≡ []) }
    ensures refused { IfErr result (λ e. IsUnloaded workspace.now e) }
    ensures complete { (s : State) → BeginsWith workspace.now s → MatchResult result (λ p. p ≡ begun s) (λ e. e ≡ load_refusal.Memory) }
{
    let kept = open(alloc, workspace)?;
    Ok(Page {
        alloc,
        kept,
        unsaid: Vec::new(alloc),
    })
}

impl Page {
    /// Spells what was written behind the bytes that wait, and tells how many wait. After an error nothing has changed.
    pub(crate) fn gather(&mut self) -> Result<usize, AllocError>
        ensures ok { OnOk result (self.new ≡ gathered_of self.old) }
        ensures told { IfOk result (λ waiting. waiting ≡ length self.new.unsaid) }
        ensures err { OnErr result (self.new ≡ self.old) }
    {
        let text = spelled_output(self.alloc, self.kept.output())?;
        self.unsaid.extend_from_slice(&text)?;
        let _taken = self.kept.take_output();
        Ok(self.unsaid.len())
    }

    /// Lays as many of the waiting bytes as a buffer holds at its start, keeps the others, and tells how many lie there.
    pub(crate) fn take(&mut self, buffer: &mut [u8]) -> usize
        ensures count { result ≡ min (length self.old.unsaid) (length buffer.old) }
        ensures laid { buffer.new ≡ laid (take result self.old.unsaid) buffer.old }
        ensures rest { self.new ≡ without_leading result self.old }
    {
        let count = self.unsaid.len().min(buffer.len());
        lay_prefix(&self.unsaid[..count], buffer);
        drop_prefix(&mut self.unsaid, count);
        count
    }
}

/// Drops the first elements.
fn drop_prefix(bytes: &mut Vec<u8>, count: usize)
    requires { count ≤ length bytes.old.items }
    ensures { bytes.new.items ≡ drop count bytes.old.items }
{
    let rest = bytes.len() - count;
    bytes.copy_within(count.., 0);
    bytes.truncate(rest);
}
