// A machine that is typed to.
ghost use Rattle.std.specs.Prelude.{◌≡◌, ◌↔◌, [], ◌∷◌, ℕ, ◌<◌, take, option_copied, slice_get, not, ◌==◌, find, true, Some, None, IfErr, IfOk, OnOk, OnErr, IsErrOf, IsFalse};
ghost use Rattle.apl_machine_state.specs.State.{is_idle, steps, steps_progress, interrupt};
ghost use Rattle.apl_order.specs.Kept.{IsKept};
ghost use Rattle.apl_machine.specs.Counts.{steps_made};
ghost use Rattle.apl_session.specs.Commands.{commanded};
ghost use Rattle.apl_session.specs.Defining.{refused, closed, next_line, open_header, typed_behind_del};
ghost use Rattle.apl_session.specs.Events as model;
ghost use Rattle.apl_session.specs.Refusals.{feed_number};
ghost use Rattle.apl_session.specs.Views.{event as event_view, event_list};

use crate::commands::obey;
use crate::decoding::decode_into;
use crate::definition::{OpenDefinition, behind_mark, close, is_close, refuse, show_or_open};
use apl_charset::{Ch, CharFault, Text, decode_line};
use apl_defn::trimmed;
use apl_faults::Fault;
use apl_machine::{BeginError, Machine, Made, OutLine, Progress};
use std::alloc::{AllocError, Global};
use std::marker::Model;
use std::mem;
use thiserror::Error;

/// The bytes of a line, without its end.
#[derive(Drop, Debug)]
pub struct Bytes {
    bytes: Vec<u8>,
}

impl Model for Bytes {
    ghost use Rattle.std.specs.Prelude.{List, ℕ};

    ghost Value = { List ℕ };

    ghost view = { λ b. b.bytes.items };
}

impl Bytes {
    /// The list of these bytes.
    pub fn new(bytes: Vec<u8>) -> Bytes
        ensures { result ≡ bytes.items }
    {
        Bytes { bytes }
    }

    /// The bytes, first to last.
    pub fn as_slice(&self) -> &[u8]
        ensures { result.now ≡ self.now }
    {
        self.bytes.as_slice()
    }
}

/// What may happen to a session.
#[derive(Drop, Debug)]
pub enum Event {
    /// A line is typed. It changes nothing in a session that runs.
    Line(Bytes),
    /// At most so many steps.
    Steps(u64),
    /// What runs is abandoned.
    Interrupt,
}

/// Why a line was not taken. The session is as before.
#[derive(Clone, Copy, Debug, PartialEq, Eq, Error)]
pub enum FeedError {
    /// A statement runs. The line may be typed once it has ended or is interrupted.
    #[error("the session runs")]
    Busy = 1,
    /// There was no memory for the line. It may be typed again.
    #[error("out of memory")]
    Memory,
}

impl FeedError {
    /// Its number, 1 or 2.
    pub fn number(self) -> u8
        ensures { result ≡ feed_number self }
    {
        self as u8
    }
}

impl From<AllocError> for FeedError {
    ghost use Rattle.std.specs.Prelude.{◌≡◌};
    ghost use Rattle.apl_session.specs.declared.session.FeedError.TheVariants.{Memory};

    ghost from_gives = { λ _ e. e ≡ Memory };

    fn from(_error: AllocError) -> FeedError {
        FeedError::Memory
    }
}

/// Out of memory, after the events before number `event`, from 0, and so many steps of that one.
#[derive(Clone, Copy, Debug, PartialEq, Eq, Error)]
#[error("out of memory at event {event} after {steps} of its steps")]
pub struct DriveError {
    pub event: usize,
    pub steps: u64,
}

/// A machine with what is typed to it. Contracts see it as the machine's state with the definition
/// that is open.
pub struct Session {
    alloc: Global,
    machine: Machine,
    definition: Option<OpenDefinition>,
    /// What the line before was decoded into; it says nothing.
    text: Vec<Ch>,
}

// Written out, so that no crate above proves again what it does.
impl Drop for Session {
    fn drop(self) {
        let Session {
            alloc: _,
            machine,
            definition,
            text,
        } = self;
        drop(machine);
        drop(definition);
        drop(text);
    }
}

impl Model for Session {
    ghost use Rattle.apl_machine_state.specs.State.{State};

    ghost Value = { State };

    ghost view = { λ s. record s.machine { definition = s.definition } };
}

/// The first character that is no blank.
fn first_mark(text: &[Ch]) -> Option<Ch>
    ensures { result ≡ model.first_mark text.now }
{
    text.iter().copied().find(|c| *c != Ch::default())
}

impl Session {
    /// A session with this machine, as it stands, and with no definition open.
    pub fn new(alloc: Global, machine: Machine) -> Self
        ensures { result ≡ closed machine }
    {
        Session {
            alloc,
            machine,
            definition: None,
            text: Vec::new(alloc),
        }
    }

    /// The machine, as it stands. An open definition is left out.
    pub fn into_machine(self) -> Machine
        ensures { result ≡ closed self }
    {
        let Session {
            alloc: _,
            machine,
            definition: _,
            text: _,
        } = self;
        machine.opens_no_definition();
        machine
    }

    /// The law that a session's state is one that a session can have, as [`Machine::keeps_order`] says.
    pub fn keeps_order(&self)
        ensures { IsKept self.now }
    {
        self.machine.keeps_order();
    }

    /// The machine, as it stands. An open definition is left out.
    pub fn machine(&self) -> &Machine
        ensures { result.now ≡ closed self.now }
    {
        self.machine.opens_no_definition();
        &self.machine
    }

    /// The number of the next line of the definition that is open, from 1, since its header is line 0; 0 where none is open. It is
    /// 1,001 where no further line is kept.
    pub fn next_line(&self) -> usize
        ensures { result ≡ next_line self.now.definition }
    {
        match &self.definition {
            Some(definition) => definition.as_slice().len(),
            None => 0,
        }
    }

    /// The header of the definition that is open, as it was typed behind `∇`; none where none is open.
    pub fn header(&self) -> Option<&Text>
        ensures { option_copied result ≡ open_header self.now.definition }
    {
        match &self.definition {
            Some(definition) => definition.as_slice().first(),
            None => None,
        }
    }

    /// The lines written since the last call of [`Session::take_output`], oldest first.
    pub fn output(&self) -> &[OutLine]
        ensures { result.now ≡ self.now.output }
    {
        self.machine.output()
    }

    /// The lines written since the last call. It takes no memory.
    pub fn take_output(&mut self) -> Vec<OutLine>
        ensures taken { result.items ≡ self.old.output }
        ensures rest { self.new ≡ record self.old { output = [] } }
    {
        self.machine.take_output()
    }

    /// Reports a fault by its name alone.
    fn refuse(&mut self, fault: Fault) -> Result<(), AllocError>
        ensures ok { OnOk result (self.new ≡ refused self.old fault) }
        ensures err { OnErr result (self.new ≡ self.old) }
    {
        refuse(self.alloc, &mut self.machine, fault)
    }

    /// Shows a function, or opens a definition, by the text behind `∇`.
    fn feed_del(&mut self, text: &[Ch]) -> Result<(), AllocError>
        requires { self.old.definition ≡ None }
        ensures ok { OnOk result (self.new ≡ typed_behind_del self.old text.now) }
        ensures err { OnErr result (self.new ≡ self.old) }
    {
        self.definition = show_or_open(self.alloc, &mut self.machine, text)?;
        Ok(())
    }

    /// Obeys the command behind `)`.
    #[tactic(auto, using(crate::proofs::Obeyed::as_commanded))]
    fn feed_command(&mut self, text: &[Ch]) -> Result<(), AllocError>
        requires { self.old.definition ≡ None }
        ensures ok { OnOk result (self.new ≡ commanded self.old text.now) }
        ensures err { OnErr result (self.new ≡ self.old) }
    {
        obey(self.alloc, &mut self.machine, text)
    }

    /// Types a text on an idle machine outside a definition.
    fn feed_outside(&mut self, text: &[Ch]) -> Result<(), FeedError>
        requires { self.old.definition ≡ None }
        ensures busy { IsErrOf result FeedError.Busy → IsFalse (is_idle self.old) }
        ensures ok { OnOk result (self.new ≡ model.typed_behind self.old text.now (model.first_mark text.now)) }
        ensures err { OnErr result (self.new ≡ self.old) }
    {
        match first_mark(text).map(|c| c.code()) {
            Some(')') => Ok(self.feed_command(behind_mark(text))?),
            Some('∇') => Ok(self.feed_del(behind_mark(text))?),
            _ => match self.machine.begin(text) {
                Ok(()) => Ok(()),
                Err(BeginError::Busy) => Err(FeedError::Busy),
                Err(BeginError::Memory) => Err(FeedError::Memory),
            },
        }
    }

    /// Types a text on an idle machine, outside a definition or in one.
    fn feed_text(&mut self, text: &[Ch]) -> Result<(), FeedError>
        requires { is_idle self.old ≡ true }
        ensures busy { IsErrOf result FeedError.Busy → IsFalse (is_idle self.old) }
        ensures ok { OnOk result (self.new ≡ model.typed_in self.old self.old.definition text.now) }
        ensures err { OnErr result (self.new ≡ self.old) }
    {
        let Some(definition) = &mut self.definition else {
            return self.feed_outside(text);
        };
        let line = trimmed(text);
        if !is_close(line) {
            definition.add(self.alloc, line)?;
            return Ok(());
        }
        close(self.alloc, &mut self.machine, definition.as_slice())?;
        self.definition = None;
        Ok(())
    }

    /// Types a line. A statement begins; what begins with `∇` or `)` is done at once; while a
    /// definition is open, the line is kept in it or closes it. A report is written at once. Busy
    /// exactly where the machine runs.
    pub fn feed(&mut self, bytes: &[u8]) -> Result<(), FeedError>
        ensures busy { IsErrOf result FeedError.Busy ↔ IsFalse (is_idle self.old) }
        ensures ok { OnOk result (self.new ≡ model.typed self.old bytes.now) }
        ensures err { OnErr result (self.new ≡ self.old) }
    {
        if !self.machine.is_idle() {
            return Err(FeedError::Busy);
        }
        let mut text = mem::replace(&mut self.text, Vec::new(self.alloc));
        let fed = if decode_into(&mut text, bytes) {
            self.feed_text(&text)
        } else {
            self.feed_apart(bytes)
        };
        self.text = text;
        fed
    }

    /// The same of any line on an idle machine. It stands apart, since most lines have no fault.
    #[inline(never)]
    fn feed_apart(&mut self, bytes: &[u8]) -> Result<(), FeedError>
        requires { is_idle self.old ≡ true }
        ensures busy { IsErrOf result FeedError.Busy → IsFalse (is_idle self.old) }
        ensures ok { OnOk result (self.new ≡ model.typed self.old bytes.now) }
        ensures err { OnErr result (self.new ≡ self.old) }
    {
        match decode_line(self.alloc, bytes) {
            Ok(text) => self.feed_text(&text),
            Err(CharFault::Memory) => Err(FeedError::Memory),
            Err(CharFault::NotUtf8 { .. }) => Ok(self.refuse(Fault::Character)?),
            Err(CharFault::NotInSet { .. }) => Ok(self.refuse(Fault::Character)?),
        }
    }

    /// The same as [`Session::advance`], and how many steps were made: fewer than `count` where the session is idle after them. Out of
    /// memory it gives the number of those that are done.
    #[tactic(auto, using(crate::proofs::Opened::same_steps))]
    pub fn make_steps(&mut self, count: u64) -> Result<Made, u64>
        ensures ok { OnOk result (self.new ≡ steps count self.old) }
        ensures steps { IfOk result (λ m. m.steps ≡ steps_made count self.old) }
        ensures progress { IfOk result (λ m. m.progress ≡ steps_progress count self.old) }
        ensures err { IfErr result (λ done. self.new ≡ steps done self.old) }
        ensures part { IfErr result (λ done. done < count) }
    {
        let made = self.machine.make_steps(count)?;
        Ok(made)
    }

    /// At most `count` steps, until the machine is idle, and where it stands after them. Out of memory it stands after the steps that are done.
    pub fn advance(&mut self, count: u64) -> Result<Progress, AllocError>
        ensures ok { OnOk result (self.new ≡ steps count self.old) }
        ensures progress { IfOk result (λ p. p ≡ steps_progress count self.old) }
        ensures err { OnErr result ((done : ℕ) × (done < count) × (self.new ≡ steps done self.old)) }
    {
        match self.make_steps(count) {
            Ok(made) => Ok(made.progress),
            Err(_) => Err(AllocError),
        }
    }

    /// Abandons what runs, with a report; an idle session stays. After an error, which is that memory
    /// has run out, the session is as before and still runs.
    pub fn interrupt(&mut self) -> Result<(), AllocError>
        ensures ok { OnOk result (self.new ≡ interrupt self.old) }
        ensures err { OnErr result (self.new ≡ self.old) }
    {
        self.machine.interrupt()
    }

    /// One event: a line is typed, which changes nothing in a session that runs, at most so many
    /// steps are made, or what runs is abandoned. Out of memory it gives the number of the event's
    /// steps that are done, 0 for a line and for an interrupt; the session stands after those steps.
    pub fn apply(&mut self, event: &Event) -> Result<(), u64>
        ensures ok { OnOk result (self.new ≡ model.after_event self.old (event_view event.now)) }
        ensures err { IfErr result (λ done. self.new ≡ steps done self.old) }
        ensures part { IfErr result (λ done. model.IsPart done (Some (event_view event.now))) }
    {
        match event {
            Event::Line(bytes) => match self.feed(bytes.as_slice()) {
                Ok(()) => Ok(()),
                Err(FeedError::Busy) => Ok(()),
                Err(FeedError::Memory) => Err(0),
            },
            Event::Steps(count) => match self.make_steps(*count) {
                Ok(_) => Ok(()),
                Err(done) => Err(done),
            },
            Event::Interrupt => match self.interrupt() {
                Ok(()) => Ok(()),
                Err(_) => Err(0),
            },
        }
    }

    /// The events in order. Out of memory the session stands where the error says.
    #[tactic(auto, using(crate::proofs::Events::in_order))]
    pub fn drive(&mut self, events: &[Event]) -> Result<(), DriveError>
        ensures ok { OnOk result (self.new ≡ model.after self.old (event_list events.now)) }
        ensures err { IfErr result (λ e. self.new ≡ steps e.steps (model.after self.old (take e.event (event_list events.now)))) }
        ensures part { IfErr result (λ e. model.IsPart e.steps (slice_get (event_list events.now) e.event)) }
    {
        for (i, event) in events.iter().enumerate() {
            if let Err(steps) = self.apply(event) {
                return Err(DriveError { event: i, steps });
            }
        }
        Ok(())
    }
}
