//! A session that a host holds.
ghost use Rattle.std.specs.Prelude.{◌≡◌, ◌↔◌, ◌⊎◌, ◌<◌, ◌≤◌, [], ℕ, length, option_copied, option_map, IfErr, IfOk, IsErrOf, IsFalse, IsTrue, MatchResult, OnErr, OnOk};
ghost use Rattle.apl_machine_state.specs.Objects.{levels};
ghost use Rattle.apl_machine_state.specs.State.{State, interrupt, is_idle, steps, steps_progress, value_of};
ghost use Rattle.apl_machine.specs.Counts.{steps_made};
ghost use Rattle.apl_session.specs.Defining.{closed, next_line, open_header};
ghost use Rattle.apl_session.specs.Events.{typed};
ghost use Rattle.apl_workspace.specs.Refusals.{IsUnloaded};
ghost use Rattle.apl_workspace.specs.Saved.{IsLoaded, IsSavedAs, settled};
ghost use Rattle.apl_workspace.specs.declared.error.LoadError.TheVariants as load_refusal;
ghost use Rattle.apl_kept.specs.Keeping.{BeginsWith, IsOneLine, has_line_feed};
ghost use Rattle.apl_kept.specs.Names.{function_named, names_of, source_of};
ghost use Rattle.apl_kept.specs.Indicator.{indicator};
ghost use Rattle.apl_kept.specs.Standing.{place_of, told_of};
ghost use Rattle.apl_kept.specs.declared.error.KeptError.TheVariants as refusal;

use crate::error::KeptError;
use crate::indicator::{StandingCall, indicator};
use crate::names::{Named, names_in, source_named};
use crate::standing::{Place, Told, line_place, line_told};
use apl_arrays::Array;
use apl_charset::{Ch, Text};
use apl_machine::{Level, Machine, Made, OutLine, Progress};
use apl_session::{FeedError, Session};
use apl_symbols::Name;
use apl_workspace::{LoadError, SaveError, load, save};
use std::alloc::{AllocError, Global};
use std::marker::Model;

/// The most bytes of a line.
const MAX_LINE: usize = 2000;

/// A session that began clear or with a workspace, so that nothing of it is lost when it is saved. Contracts see its state.
pub struct Kept {
    alloc: Global,
    session: Session,
}

// Written out, so that no crate above proves again what it does.
impl Drop for Kept {
    fn drop(self) {
        let Kept { alloc: _, session } = self;
        drop(session);
    }
}

impl Model for Kept {
    ghost use Rattle.apl_machine_state.specs.State.{State};

    ghost Value = { State };

    ghost use Rattle.apl_savable.specs.Reached.{IsReached};

    ghost view = { λ k. k.session };

    ghost invariant = { λ k. IsReached k.session };
}

/// The machine of a workspace file, or a clear one where no bytes are given.
fn machine_of(alloc: Global, workspace: &[u8]) -> Result<Machine, LoadError>
    ensures begun { IfOk result (λ m. BeginsWith workspace.now m) }
    ensures idle { IfOk result (λ m. IsTrue (is_idle m)) }
    ensures quiet { IfOk result (λ m. m.output ≡ []) }
    ensures refused { IfErr result (λ e. IsUnloaded workspace.now e) }
    ensures complete { (s : State) → BeginsWith workspace.now s → MatchResult result (λ m. m ≡ s) (λ e. e ≡ load_refusal.Memory) }
{
    if workspace.is_empty() {
        return Ok(Machine::new(alloc));
    }
    load(alloc, workspace)
}

/// A session on the workspace of a file, or on a clear one where no bytes are given. It is idle, and has written nothing. Errors are
/// those of [`apl_workspace::load`].
#[tactic(auto, using(crate::proofs::Beginning::open_reached))]
pub fn open(alloc: Global, workspace: &[u8]) -> Result<Kept, LoadError>
    ensures opened { IfOk result (λ k. BeginsWith workspace.now k) }
    ensures idle { IfOk result (λ k. IsTrue (is_idle k)) }
    ensures quiet { IfOk result (λ k. k.output ≡ []) }
    ensures refused { IfErr result (λ e. IsUnloaded workspace.now e) }
    // Bytes that stand for a state are never refused, and stand for no other.
    ensures complete { (s : State) → BeginsWith workspace.now s → MatchResult result (λ k. k ≡ s) (λ e. e ≡ load_refusal.Memory) }
{
    let machine = machine_of(alloc, workspace)?;
    machine.opens_no_definition();
    Ok(Kept {
        alloc,
        session: Session::new(alloc, machine),
    })
}

impl Kept {
    /// Whether nothing runs.
    pub fn is_idle(&self) -> bool
        ensures { result ≡ is_idle self.now }
    {
        self.session.machine().is_idle()
    }

    /// The number of the next line of the definition that is open, from 1; 0 where none is open.
    pub fn next_line(&self) -> usize
        ensures { result ≡ next_line self.now.definition }
    {
        self.session.next_line()
    }

    /// The header of the definition that is open, as it was typed behind `∇`; none where none is open.
    pub fn header(&self) -> Option<&Text>
        ensures { option_copied result ≡ open_header self.now.definition }
    {
        self.session.header()
    }

    /// How the session stands: whether a statement runs, and else what the last line tells that nobody has taken. A fault's report and
    /// that of a stop are the last lines that what was typed writes.
    pub fn told(&self) -> Told
        ensures { result ≡ told_of self.now }
    {
        if self.is_idle() {
            line_told(self.output().last())
        } else {
            Told::Running
        }
    }

    /// Where the fault or the stop is that [`Kept::told`] tells: at the column that is blamed, in the typed text or in the line at which the
    /// newest call is suspended; for a stop at that line. There is none where neither is told, and for a fault whose report is its name alone.
    pub fn place(&self) -> Option<Place>
        ensures { result ≡ place_of self.now }
    {
        if !self.is_idle() {
            return None;
        }
        line_place(self.session.machine(), self.output().last())
    }

    /// Types a line, without its line feed. Its steps are still to be made. Errors, the first of these, with the session as before:
    /// LineTooLong where it has over 2,000 bytes, LineFeed where a line feed is among them, Running where a statement runs; Memory,
    /// at any time.
    pub fn type_line(&mut self, line: &[u8]) -> Result<(), KeptError>
        ensures long { IsErrOf result refusal.LineTooLong ↔ (2000 < length line.now) }
        ensures feed { IsErrOf result refusal.LineFeed ↔ ((length line.now ≤ 2000) × IsTrue (has_line_feed line.now)) }
        ensures running { IsErrOf result refusal.Running ↔ (IsOneLine line.now × IsFalse (is_idle self.old)) }
        ensures ok { OnOk result (self.new ≡ typed self.old line.now) }
        ensures err { OnErr result (self.new ≡ self.old) }
    {
        if line.len() > MAX_LINE {
            return Err(KeptError::LineTooLong);
        }
        if line.contains(&b'\n') {
            return Err(KeptError::LineFeed);
        }
        match self.session.feed(line) {
            Ok(()) => Ok(()),
            Err(FeedError::Busy) => Err(KeptError::Running),
            Err(FeedError::Memory) => Err(KeptError::Memory),
        }
    }

    /// At most `count` steps, until nothing runs, and where the session stands after them. After an error, which is that memory has
    /// run out, it stands after the steps that are done.
    pub fn advance(&mut self, count: u64) -> Result<Progress, AllocError>
        ensures ok { OnOk result (self.new ≡ steps count self.old) }
        ensures progress { IfOk result (λ p. p ≡ steps_progress count self.old) }
        ensures err { OnErr result ((done : ℕ) × (done < count) × (self.new ≡ steps done self.old)) }
    {
        let made = self.make_steps(count)?;
        Ok(made.progress)
    }

    /// The same as [`Kept::advance`], and how many steps were made: fewer than `count` where nothing runs after them.
    pub fn make_steps(&mut self, count: u64) -> Result<Made, AllocError>
        ensures ok { OnOk result (self.new ≡ steps count self.old) }
        ensures steps { IfOk result (λ m. m.steps ≡ steps_made count self.old) }
        ensures progress { IfOk result (λ m. m.progress ≡ steps_progress count self.old) }
        ensures err { OnErr result ((done : ℕ) × (done < count) × (self.new ≡ steps done self.old)) }
    {
        match self.session.make_steps(count) {
            Ok(made) => Ok(made),
            Err(_) => Err(AllocError),
        }
    }

    /// Abandons what runs, with a report; an idle session stays. After an error, which is that memory has run out, the session is as
    /// before and still runs.
    pub fn interrupt(&mut self) -> Result<(), AllocError>
        ensures ok { OnOk result (self.new ≡ interrupt self.old) }
        ensures err { OnErr result (self.new ≡ self.old) }
    {
        self.session.interrupt()
    }

    /// The lines written since the last call of [`Kept::take_output`], oldest first.
    pub fn output(&self) -> &[OutLine]
        ensures { result.now ≡ self.now.output }
    {
        self.session.output()
    }

    /// The lines written since the last call. It takes no memory.
    pub fn take_output(&mut self) -> Vec<OutLine>
        ensures taken { result.items ≡ self.old.output }
        ensures rest { self.new ≡ record self.old { output = [] } }
    {
        self.session.take_output()
    }

    /// The global names, ascending, with what a statement that begins now reads under each: a name that a local hides is told as
    /// the local.
    pub fn names(&self) -> Result<Vec<Named>, AllocError>
        ensures { IfOk result (λ names. names.items ≡ names_of self.now) }
    {
        names_in(self.alloc, self.session.machine())
    }

    /// The standing calls, newest first, as a state indicator shows them.
    pub fn levels(&self) -> Result<Vec<Level>, AllocError>
        ensures { IfOk result (λ found. found.items ≡ levels self.now.contexts) }
    {
        self.session.machine().levels()
    }

    /// The standing calls, newest first, each with its line, the column at which that waits, and its locals as the call has them.
    pub fn indicator(&self) -> Result<Vec<StandingCall>, AllocError>
        ensures { IfOk result (λ calls. calls.items ≡ indicator self.now.contexts) }
    {
        indicator(self.alloc, self.session.machine())
    }

    /// The header and the lines of the global function that a word names. There are none where it names no function.
    pub fn listing(&self, word: &[Ch]) -> Result<Option<Vec<Text>>, AllocError>
        ensures { IfOk result (λ found. option_map (λ lines. lines.items) found ≡ option_map source_of (function_named self.now word.now)) }
    {
        source_named(self.alloc, self.session.machine(), word)
    }

    /// The value of a name, as a statement that begins now would read it, if it has one. A label has none, nor has a function.
    pub fn value(&self, name: &Name) -> Option<&Array>
        ensures { option_copied result ≡ value_of self.now name.now }
    {
        self.session.machine().value(name)
    }

    /// The file of the workspace. An open definition is left out, and so is what is written and not taken. Running exactly where a
    /// statement runs; Memory: it has run out.
    pub fn save(&self) -> Result<Vec<u8>, KeptError>
        ensures running { IsErrOf result refusal.Running ↔ IsFalse (is_idle self.now) }
        ensures only { IfErr result (λ e. (e ≡ refusal.Running) ⊎ (e ≡ refusal.Memory)) }
        ensures saved { IfOk result (λ b. IsSavedAs b.items (closed self.now)) }
        // What is loaded of it is the same state.
        ensures again { IfOk result (λ b. IsLoaded b.items (settled self.now)) }
    {
        match save(self.alloc, self.session.machine()) {
            Ok(bytes) => Ok(bytes),
            Err(SaveError::Running) => Err(KeptError::Running),
            Err(SaveError::Memory) => Err(KeptError::Memory),
        }
    }
}
