//! The machine.
ghost use Rattle.std.specs.Prelude.{◌≡◌, ◌↔◌, [], ◌∷◌, None, Some, Ok, true, false, IfOk, IfSome};
ghost use Rattle.std.specs.Prelude.{◌<◌, IfErr, IfNone, OnOk, OnErr, IsErrOf, IsFalse, option_copied, option_map};
ghost use Rattle.apl_machine_state.specs.Items.{Rest};
ghost use Rattle.apl_machine_state.specs.Environment.{class_of, rest_at};
ghost use Rattle.apl_machine_state.specs.Frames.{IsFrame};
ghost use Rattle.apl_machine_state.specs.Objects.{cleared, erased, globals, levels, vectors_of};
ghost use Rattle.apl_machine_state.specs.State.{State, clear, definition_of, interrupt, is_global_variable, is_idle};
ghost use Rattle.apl_machine_state.specs.Reports.{lines_of};
ghost use Rattle.apl_machine_state.specs.State.{progress, step, steps, steps_progress, turn, value_of, with_function, with_lines};
ghost use Rattle.apl_machine_state.specs.Beginning.{begun};
ghost use Rattle.apl_order.specs.Kept.{IsKept};
ghost use Rattle.apl_contexts.specs.Contexts.{line_in};
ghost use Rattle.apl_contexts.specs.Typed.{IsTyped};
ghost use Rattle.apl_names.specs.Maps.{IsMap};
ghost use Rattle.apl_machine.specs.Counts.{steps_made};
ghost use Rattle.apl_machine.specs.Refusals.{error_number};
ghost use Rattle.apl_machine.specs.Spaces.{IsSound, state_of};

use crate::objects::{clear, define, erase, function_in, is_variable};
use crate::reports::{token_fault, typed_fault};
use crate::stepping::{Made, abandon, make_many};
use crate::workspace::Workspace;
use apl_arrays::{Array, Origin};
use apl_charset::{Ch, Text};
use apl_contexts::{Contexts, Lines, TextLine, text_line};
use apl_defn::Definition;
use apl_faults::Fault;
use apl_frames::Frame;
use apl_machine_state::{Level, LineKind, OutLine, Progress};
use apl_names::Names;
use apl_phrases::said;
use apl_symbols::{Class, Name};
use apl_translate::{Cache, Translated};
use apl_vectors::Vectors;
use std::alloc::{AllocError, Global};
use std::marker::Model;
use std::mem;
use std::rc::Rc;
use thiserror::Error;

/// A workspace with what runs in it.
pub struct Machine {
    pub(crate) workspace: Workspace,
}

// Written out, so that no crate above proves again what it does.
impl Drop for Machine {
    fn drop(self) {
        let Machine { workspace } = self;
        drop(workspace);
    }
}

impl Model for Machine {
    ghost use Rattle.apl_machine_state.specs.State.{State};

    ghost Value = { State };

    ghost use Rattle.apl_machine.specs.Spaces.{IsHeld, state_of};

    ghost view = { λ m. state_of m.workspace };

    ghost invariant = { λ m. IsHeld m.workspace };
}

/// Why a line did not begin.
#[derive(Clone, Copy, Debug, PartialEq, Eq, Error)]
pub enum BeginError {
    /// Something runs: a line begins on an idle machine alone.
    #[error("a statement runs")]
    Busy,
    /// Memory has run out: the same line may begin later.
    #[error("out of memory")]
    Memory,
}

impl BeginError {
    /// Its number, 1 or 2.
    pub fn number(self) -> u8
        ensures { result ≡ error_number self }
    {
        match self {
            BeginError::Busy => 1,
            BeginError::Memory => 2,
        }
    }
}

impl From<AllocError> for BeginError {
    ghost use Rattle.std.specs.Prelude.{◌≡◌};
    ghost use Rattle.apl_machine.specs.declared.machine.BeginError.TheVariants.{Memory};

    ghost from_gives = { λ _ e. e ≡ Memory };

    fn from(_error: AllocError) -> BeginError {
        BeginError::Memory
    }
}

/// Begins the statement of a typed text on an idle machine, or reports its fault. After an error
/// nothing has changed.
fn begin(workspace: &mut Workspace, text: &[Ch]) -> Result<(), AllocError>
    requires sound { IsSound workspace.old }
    requires idle { line_in workspace.old.contexts ≡ None }
    ensures sound { IsSound workspace.new }
    ensures ok { OnOk result (state_of workspace.new ≡ begun (state_of workspace.old) text.now) }
    ensures err { OnErr result (workspace.new ≡ workspace.old) }
{
    let read = text_line(
        &mut workspace.lines,
        &workspace.names,
        &mut workspace.cache,
        text,
    )?;
    let mut lines = match read {
        TextLine::Bare(line) => return start(workspace, text, line),
        TextLine::Labelled(column) => typed_fault(workspace.alloc, Fault::Syntax, text, column)?,
        TextLine::Faulty(error) => token_fault(workspace.alloc, error, text)?,
    };
    workspace.output.append(&mut lines)?;
    Ok(())
}

/// Begins the statement of a typed text, whose line this is, on an idle machine. After an error nothing
/// has changed.
fn start(workspace: &mut Workspace, text: &[Ch], line: Rc<Translated>) -> Result<(), AllocError>
    requires sound { IsSound workspace.old }
    requires idle { line_in workspace.old.contexts ≡ None }
    requires typed { IsTyped workspace.old.maps text.now line.value.bound }
    ensures sound { IsSound workspace.new }
    ensures ok { OnOk result (state_of workspace.new ≡ begun (state_of workspace.old) text.now) }
    ensures err { OnErr result (workspace.new ≡ workspace.old) }
{
    let text = Text::new(Vec::from_slice(workspace.alloc, text)?);
    workspace
        .contexts
        .push_statement(workspace.alloc, text, line)?;
    Ok(())
}

impl Machine {
    /// A clear workspace. It takes no memory.
    pub fn new(alloc: Global) -> Self
        ensures { result ≡ clear }
    {
        Machine {
            workspace: Workspace {
                alloc,
                names: Names::new(alloc),
                stops: Vectors::new(alloc),
                traces: Vectors::new(alloc),
                io: Origin::One,
                cache: Cache::new(alloc),
                lines: Lines::new(alloc),
                contexts: Contexts::new(alloc),
                output: Vec::new(alloc),
            },
        }
    }

    /// Whether nothing runs.
    pub fn is_idle(&self) -> bool
        ensures { result ≡ is_idle self.now }
    {
        self.workspace.contexts.line().is_none()
    }

    /// The law that no definition is open in a machine: an open one belongs to a session.
    pub fn opens_no_definition(&self)
        ensures { self.now.definition ≡ None }
    {
        // What a workspace keeps says it.
        let _workspace = &self.workspace;
    }

    /// The law that a machine's state is one that a machine can have: its contexts stand in order, and what it keeps of its names,
    /// lines and vectors holds together.
    pub fn keeps_order(&self)
        ensures { IsKept self.now }
    {
        // What a workspace keeps says it.
        let _workspace = &self.workspace;
    }

    /// Begins the statement of a typed text. A text that is no line, or has a label, is reported
    /// and leaves the machine idle. After an error the machine is as before.
    pub fn begin(&mut self, text: &[Ch]) -> Result<(), BeginError>
        ensures busy { IsErrOf result BeginError.Busy ↔ IsFalse (is_idle self.old) }
        ensures ok { OnOk result (self.new ≡ begun self.old text.now) }
        ensures err { OnErr result (self.new ≡ self.old) }
    {
        if !self.is_idle() {
            return Err(BeginError::Busy);
        }
        begin(&mut self.workspace, text)?;
        Ok(())
    }

    /// One reduction of a phrase, or one line end. An idle machine stays as it is. After an error
    /// the machine is as before, at the same instruction.
    pub fn step(&mut self) -> Result<Progress, AllocError>
        ensures ok { OnOk result (self.new ≡ step self.old) }
        ensures progress { IfOk result (λ p. p ≡ progress (turn self.old)) }
        ensures err { OnErr result (self.new ≡ self.old) }
    {
        match make_many(&mut self.workspace, 1) {
            Ok(made) => Ok(made.progress),
            Err(_) => Err(AllocError),
        }
    }

    /// At most `count` steps, until the machine is idle, and where it stands after them. Out of memory it gives the number of those that are
    /// done; the machine stands after these.
    pub fn advance(&mut self, count: u64) -> Result<Progress, u64>
        ensures ok { OnOk result (self.new ≡ steps count self.old) }
        ensures progress { IfOk result (λ p. p ≡ steps_progress count self.old) }
        ensures err { IfErr result (λ done. self.new ≡ steps done self.old) }
        ensures part { IfErr result (λ done. done < count) }
    {
        let made = self.make_steps(count)?;
        Ok(made.progress)
    }

    /// The same as [`Machine::advance`], and how many steps were made: fewer than `count` where the machine is idle after them.
    pub fn make_steps(&mut self, count: u64) -> Result<Made, u64>
        ensures ok { OnOk result (self.new ≡ steps count self.old) }
        ensures steps { IfOk result (λ m. m.steps ≡ steps_made count self.old) }
        ensures progress { IfOk result (λ m. m.progress ≡ steps_progress count self.old) }
        ensures err { IfErr result (λ done. self.new ≡ steps done self.old) }
        ensures part { IfErr result (λ done. done < count) }
    {
        make_many(&mut self.workspace, count)
    }

    /// Abandons what runs, with a report; an idle machine stays as it is. After an error the
    /// machine is as before.
    pub fn interrupt(&mut self) -> Result<(), AllocError>
        ensures ok { OnOk result (self.new ≡ interrupt self.old) }
        ensures err { OnErr result (self.new ≡ self.old) }
    {
        if self.is_idle() {
            return Ok(());
        }
        abandon(&mut self.workspace)?;
        Ok(())
    }

    /// Writes a line of this kind. After an error the machine is as before.
    pub fn say(&mut self, kind: LineKind, text: Text) -> Result<(), AllocError>
        ensures ok { OnOk result (self.new ≡ with_lines (lines_of kind (text ∷ [])) self.old) }
        ensures err { OnErr result (self.new ≡ self.old) }
    {
        self.workspace.output.push(OutLine { text, kind })?;
        Ok(())
    }

    /// Writes lines of this kind, all of them or none. After an error the machine is as before.
    pub fn say_lines(&mut self, kind: LineKind, texts: Vec<Text>) -> Result<(), AllocError>
        ensures ok { OnOk result (self.new ≡ with_lines (lines_of kind texts.items) self.old) }
        ensures err { OnErr result (self.new ≡ self.old) }
    {
        let mut lines = said(self.workspace.alloc, kind, texts)?;
        self.workspace.output.append(&mut lines)?;
        Ok(())
    }

    /// The lines written since the last call of [`Machine::take_output`], oldest first.
    pub fn output(&self) -> &[OutLine]
        ensures { result.now ≡ self.now.output }
    {
        self.workspace.output.as_slice()
    }

    /// The lines written since the last call. It takes no memory.
    pub fn take_output(&mut self) -> Vec<OutLine>
        ensures taken { result.items ≡ self.old.output }
        ensures rest { self.new ≡ record self.old { output = [] } }
    {
        let alloc = self.workspace.alloc;
        mem::replace(&mut self.workspace.output, Vec::new(alloc))
    }

    /// The value of a name, as a statement that begins now would read it, if it has one. A label has
    /// none, nor has a function.
    pub fn value(&self, name: &Name) -> Option<&Array>
        ensures { option_copied result ≡ value_of self.now name.now }
    {
        self.workspace.names.lookup(name)
    }

    /// What a name stands for now.
    pub fn class_of(&self, name: &Name) -> Class
        ensures { result ≡ class_of self.now.world self.now.contexts name.now }
    {
        self.workspace.names.class_of(name)
    }

    /// The global function of a name.
    pub fn definition(&self, name: &Name) -> Option<&Definition>
        ensures { option_copied result ≡ definition_of self.now name.now }
    {
        function_in(self.workspace.names.global(name))
    }

    /// The stop and trace vectors of a global function. There are none where the name is not that of
    /// a global function.
    pub fn vectors(&self, name: &Name) -> Option<(&[usize], &[usize])>
        ensures { option_map (λ v. (v.0.now, v.1.now)) result ≡ vectors_of self.now name.now }
    {
        if self.definition(name).is_none() {
            return None;
        }
        let stops = self.workspace.stops.get(name);
        let traces = self.workspace.traces.get(name);
        Some((stops, traces))
    }

    /// Whether a name is that of a global variable.
    pub fn is_variable(&self, name: &Name) -> bool
        ensures { result ≡ is_global_variable self.now name.now }
    {
        is_variable(self.workspace.names.global(name))
    }

    /// Defines a function, instead of what its name stood for globally, with empty stop and trace
    /// vectors. The machine is idle, and the name is not that of a global variable, by the caller's
    /// care. Calls that stand go on with their own definitions. After an error the machine is as
    /// before.
    pub fn define(&mut self, definition: Definition) -> Result<(), AllocError>
        requires idle { is_idle self.old ≡ true }
        requires free { is_global_variable self.old definition.header.name ≡ false }
        ensures ok { OnOk result (self.new ≡ with_function definition self.old) }
        ensures err { OnErr result (self.new ≡ self.old) }
    {
        define(&mut self.workspace, definition)?;
        Ok(())
    }

    /// The global names, ascending, and whether each is that of a function.
    pub fn globals(&self) -> Result<Vec<(Name, bool)>, AllocError>
        ensures kinds { IfOk result (λ names. names.items ≡ globals self.now) }
        ensures ascend { IsMap self.now.world.globals }
    {
        self.workspace.names.globals()
    }

    /// Erases the global objects of these names, with their stop and trace vectors; a name of none is
    /// passed over. Calls that stand go on with their own definitions. It takes no memory.
    pub fn erase(&mut self, names: &[Name])
        ensures { self.new ≡ erased names.now self.old }
    {
        erase(&mut self.workspace, names);
    }

    /// Makes it a clear workspace, with the output that is written. It takes no memory.
    pub fn clear(&mut self)
        ensures { self.new ≡ cleared self.old }
    {
        clear(&mut self.workspace);
    }

    /// The standing calls, newest first, as a state indicator shows them.
    pub fn levels(&self) -> Result<Vec<Level>, AllocError>
        ensures { IfOk result (λ found. found.items ≡ levels self.now.contexts) }
    {
        self.workspace.contexts.levels(self.workspace.alloc)
    }

    /// The translations that were looked up last. They change no answer.
    pub fn cache(&self) -> &Cache {
        &self.workspace.cache
    }

    /// The line that the k-th newest context is doing, counted from 0. There is none where that
    /// context is suspended or isn't there.
    pub fn frame(&self, k: usize) -> Option<Frame<'_>>
        ensures some { IfSome result (λ f. (rest : Rest) × (rest_at self.now.contexts k ≡ Some rest) × IsFrame rest f.code.now f.done f.operands.now) }
        ensures none { IfNone result (rest_at self.now.contexts k ≡ None) }
    {
        let Some(context) = self.workspace.contexts.get(k) else {
            return None;
        };
        let Some(line) = context.line() else {
            return None;
        };
        Some(line.frame())
    }
}
