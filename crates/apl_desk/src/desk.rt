// Sessions by number.
ghost use Rattle.std.specs.Prelude.{◌≡◌, ◌<◌, ◌≤◌, [], All, length, Some, IfErr, OnOk, option_copied, slice_get, slice_set};
ghost use Rattle.apl_machine_state.specs.State.{steps};
ghost use Rattle.apl_session.specs.Events.{IsPart, after_event};
ghost use Rattle.apl_session.specs.Views.{event as event_view};
ghost use Rattle.apl_desk.specs.Desk.{AreAlone, LeftAt, session};
ghost use Rattle.apl_desk.specs.Views.{addressed_list};

use apl_machine::OutLine;
use apl_session::{Event, Session};
use std::marker::Model;
use thiserror::Error;

/// Out of memory, after the pairs before number `pair`, from 0, and so many steps of that one.
#[derive(Clone, Copy, Debug, PartialEq, Eq, Error)]
#[error("out of memory at pair {pair} after {steps} of its steps")]
pub struct DeskError {
    pub pair: usize,
    pub steps: u64,
}

/// Sessions side by side, at most 64. A session's number is its place, from 0. Contracts see the
/// list of them.
pub struct Desk {
    sessions: Vec<Session>,
}

// Written out, so that no crate above proves again what it does.
impl Drop for Desk {
    fn drop(self) {
        let Desk { sessions } = self;
        drop(sessions);
    }
}

impl Model for Desk {
    ghost use Rattle.std.specs.Prelude.{List, length, ◌≤◌};
    ghost use Rattle.apl_machine_state.specs.State.{State};

    ghost Value = { List State };

    ghost view = { λ d. d.sessions.items };

    ghost invariant = { λ d. length d.sessions.items ≤ 64 };
}

impl Desk {
    /// A desk of these sessions, as they are. There are at most 64, by the caller's care.
    pub fn new(sessions: Vec<Session>) -> Desk
        requires { length sessions.items ≤ 64 }
        ensures { result ≡ sessions.items }
    {
        Desk { sessions }
    }

    /// How many sessions there are.
    pub fn len(&self) -> usize
        ensures value { result ≡ length self.now }
        ensures few { result ≤ 64 }
    {
        self.sessions.len()
    }

    /// The session of that number, if there is one.
    pub fn session(&self, number: usize) -> Option<&Session>
        ensures { option_copied result ≡ slice_get self.now number }
    {
        self.sessions.get(number)
    }

    /// The sessions, as they are.
    pub fn into_sessions(self) -> Vec<Session>
        ensures { result.items ≡ self }
    {
        let Desk { sessions } = self;
        sessions
    }

    /// The lines that a session wrote since the last call. Its number is below `len`, by the caller's
    /// care. It takes no memory, and the other sessions stay as they are.
    pub fn take_output(&mut self, number: usize) -> Vec<OutLine>
        requires { number < length self.old }
        ensures taken { result.items ≡ (session self.old number).output }
        ensures rest { self.new ≡ slice_set self.old number (record (session self.old number) { output = [] }) }
    {
        self.sessions[number].take_output()
    }

    /// An event of one session. Out of memory it gives the number of its steps that are done.
    fn apply(&mut self, number: usize, event: &Event) -> Result<(), u64>
        requires { number < length self.old }
        ensures ok { OnOk result (self.new ≡ slice_set self.old number (after_event (session self.old number) (event_view event.now))) }
        ensures err { IfErr result (λ done. self.new ≡ slice_set self.old number (steps done (session self.old number))) }
        ensures part { IfErr result (λ done. IsPart done (Some (event_view event.now))) }
    {
        self.sessions[number].apply(event)
    }

    /// The events in order, each of the session of the number beside it. The numbers are below `len`,
    /// by the caller's care. Out of memory each session stands where its events before that
    /// pair led it, and the pair's has made that many steps more.
    pub fn drive(&mut self, pairs: &[(usize, Event)]) -> Result<(), DeskError>
        requires { All (λ p. p.0 < length self.old) pairs.now }
        ensures ok { OnOk result (AreAlone self.old (addressed_list pairs.now) self.new) }
        ensures err { IfErr result (λ e. LeftAt self.old (addressed_list pairs.now) e.pair e.steps self.new) }
    {
        for (pair, (number, event)) in pairs.iter().enumerate() {
            if let Err(steps) = self.apply(*number, event) {
                return Err(DeskError { pair, steps });
            }
        }
        Ok(())
    }
}
