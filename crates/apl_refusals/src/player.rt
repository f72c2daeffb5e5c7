//! Sessions that are played a call at a time.
ghost use Rattle.std.specs.Prelude.{◌≡◌, OnOk, OnErr};
ghost use Rattle.apl_session.specs.Events.{after_event};
ghost use Rattle.apl_refusals.specs.inside.Calls.{event_of};

use crate::unmade::Unmade;
use apl_machine::{Machine, OutLine};
use apl_session::{FeedError, Session};
use apl_workspace::{load, save};
use std::alloc::{AllocError, Global};

/// The most steps that a line is given before it is interrupted.
pub const STEPS: u64 = 1000;

/// A call of a session.
#[derive(Clone, Copy)]
enum Call {
    /// The line that is due is typed.
    Line,
    /// One step.
    Step,
    /// What runs is abandoned.
    Interrupt,
}

/// Makes a call, where this line is due. After an error the session is as before.
fn make(session: &mut Session, call: Call, line: &[u8]) -> Result<(), AllocError>
    ensures ok { OnOk result (session.new ≡ after_event session.old (event_of call line.now)) }
    ensures err { OnErr result (session.new ≡ session.old) }
{
    match call {
        Call::Line => match session.feed(line) {
            Ok(()) => Ok(()),
            Err(FeedError::Busy) => Ok(()),
            Err(FeedError::Memory) => Err(AllocError),
        },
        Call::Step => {
            session.advance(1)?;
            Ok(())
        }
        Call::Interrupt => session.interrupt(),
    }
}

/// A call that is due.
#[derive(Clone, Copy)]
enum Due {
    /// One of the session.
    Session(Call),
    /// The workspace is saved.
    Save,
    /// The workspace that was saved last is loaded, in place of the session's.
    Load,
}

/// The call that a line asks for.
fn asked_by(line: &[u8]) -> Due {
    match line {
        b")SAVE" => Due::Save,
        b")LOAD" => Due::Load,
        _ => Due::Session(Call::Line),
    }
}

/// The first line of a text, without its line feed and a carriage return before that, and what stands behind it.
fn first_line(text: &[u8]) -> (&[u8], &[u8]) {
    match text.iter().position(|byte| *byte == b'\n') {
        Some(end) => {
            let (line, rest) = text.split_at(end);
            match line.split_last() {
                Some((b'\r', prefix)) => (prefix, &rest[1..]),
                _ => (line, &rest[1..]),
            }
        }
        None => (text, &[]),
    }
}

/// A session with what is still to be typed. A line is typed as soon as nothing runs, and is interrupted after its steps.
/// The lines `)SAVE` and `)LOAD` are typed to nobody: they save the workspace in memory and load it again.
#[derive(Drop)]
pub struct Player<'a> {
    alloc: Global,
    session: Session,
    file: Vec<u8>,
    rest: &'a [u8],
    calls: u64,
    line: u64,
    steps: u64,
}

impl<'a> Player<'a> {
    /// A clear session with this input. It takes no memory.
    pub fn new(alloc: Global, input: &'a [u8]) -> Player<'a> {
        Player {
            alloc,
            file: Vec::new(alloc),
            session: Session::new(alloc, Machine::new(alloc)),
            rest: input,
            calls: 0,
            line: 0,
            steps: 0,
        }
    }

    /// The session with this input after so many calls, without its output.
    pub fn after(alloc: Global, input: &'a [u8], calls: u64) -> Result<Player<'a>, Unmade> {
        let mut player = Player::new(alloc, input);
        for _ in 0..calls {
            player.play()?;
            player.take_output();
        }
        Ok(player)
    }

    /// The machine of the session, as it stands.
    pub fn machine(&self) -> &Machine {
        self.session.machine()
    }

    /// The workspace file that was saved last; no bytes where none was.
    pub fn file(&self) -> &[u8] {
        self.file.as_slice()
    }

    /// The lines written since the last call. It takes no memory.
    pub fn take_output(&mut self) -> Vec<OutLine> {
        self.session.take_output()
    }

    /// How many calls were made.
    pub fn calls(&self) -> u64 {
        self.calls
    }

    /// The number of the line that was typed last, from 1; 0 before the first.
    pub fn line(&self) -> u64 {
        self.line
    }

    /// How many steps that line has made.
    pub fn steps(&self) -> u64 {
        self.steps
    }

    /// The call that is due. There is none at the session's end.
    fn due(&self) -> Option<Due> {
        if !self.session.machine().is_idle() {
            if self.steps < STEPS {
                Some(Due::Session(Call::Step))
            } else {
                Some(Due::Session(Call::Interrupt))
            }
        } else if self.rest.is_empty() {
            None
        } else {
            Some(asked_by(first_line(self.rest).0))
        }
    }

    /// Counts a call that was made.
    fn count(&mut self, due: Due) {
        self.calls = self.calls.saturating_add(1);
        match due {
            Due::Session(Call::Step) => self.steps = self.steps.saturating_add(1),
            Due::Session(Call::Interrupt) => {}
            Due::Session(Call::Line) | Due::Save | Due::Load => {
                self.rest = first_line(self.rest).1;
                self.line = self.line.saturating_add(1);
                self.steps = 0;
            }
        }
    }

    /// Saves the workspace. After an error all is as before.
    fn save(&mut self) -> Result<(), Unmade>
        ensures { OnErr result (self.new ≡ self.old) }
    {
        self.file = save(self.alloc, self.session.machine())?;
        Ok(())
    }

    /// Goes on with the workspace that was saved last. After an error all is as before.
    fn load(&mut self) -> Result<(), Unmade>
        ensures { OnErr result (self.new ≡ self.old) }
    {
        let machine = load(self.alloc, self.file.as_slice())?;
        self.session = Session::new(self.alloc, machine);
        Ok(())
    }

    /// Makes this call. After an error all is as before.
    fn make(&mut self, due: Due) -> Result<(), Unmade>
        ensures { OnErr result (self.new ≡ self.old) }
    {
        match due {
            Due::Session(call) => Ok(make(&mut self.session, call, first_line(self.rest).0)?),
            Due::Save => self.save(),
            Due::Load => self.load(),
        }
    }

    /// Makes the call that is due. False: there is none. After an error all is as before.
    pub fn play(&mut self) -> Result<bool, Unmade>
        ensures { OnErr result (self.new ≡ self.old) }
    {
        let Some(due) = self.due() else {
            return Ok(false);
        };
        self.make(due)?;
        self.count(due);
        Ok(true)
    }
}
