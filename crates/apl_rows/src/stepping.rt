//! Steps, events, and lines whose stops are answered.

use crate::page::{Page, Shown};
use crate::player::Player;
use crate::typing::{feed, write_session};
use crate::words::{next_word, number};
use apl_debug::Stepper;
use apl_machine::{Machine, Progress};
use apl_resume::resume_all;
use apl_session::{Bytes, Event, Session};
use std::alloc::AllocError;
use std::mem;

impl Shown for Progress {
    fn show_on(&self, page: &mut Page) {
        page.line(match self {
            Progress::Idle => "Idle",
            Progress::Stopped => "Stopped",
            Progress::LineEnd => "LineEnd",
            Progress::Running => "Running",
        });
    }
}

/// Writes what the session has written, and what steps came to.
fn write_progress(player: &mut Player, progress: Result<Progress, AllocError>) {
    write_session(player);
    player.page.answer(progress);
}

/// Makes at most so many steps at once.
fn make_steps(player: &mut Player, text: &str) {
    let progress = player.session.advance(number(text));
    write_progress(player, progress);
}

/// How a stepper steps.
#[derive(Clone, Copy)]
enum Way {
    One,
    Line(u64),
    Idle(u64),
}

/// Steps a machine through a stepper.
fn step_machine(machine: &mut Machine, way: Way) -> Result<Progress, AllocError> {
    let mut stepper = Stepper::new(machine);
    match way {
        Way::One => stepper.one(),
        Way::Line(count) => stepper.line(count),
        Way::Idle(count) => stepper.until_idle(count),
    }
}

/// Steps the machine of the session, which has no definition open, through a stepper.
fn step_by(player: &mut Player, way: Way) {
    let alloc = player.page.alloc;
    let taken = mem::replace(
        &mut player.session,
        Session::new(alloc, Machine::new(alloc)),
    );
    let mut machine = taken.into_machine();
    let progress = step_machine(&mut machine, way);
    player.session = Session::new(alloc, machine);
    write_progress(player, progress);
}

/// The event that a text is: `line TEXT`, `steps N` or `interrupt`.
pub fn event_of(page: &mut Page, text: &str) -> Event {
    let (word, text) = next_word(text);
    match word {
        "line" => Event::Line(Bytes::new(page.bytes_of(text))),
        "steps" => Event::Steps(number(text)),
        _ => Event::Interrupt,
    }
}

/// The events between the marks `◊`.
fn events_of(page: &mut Page, text: &str) -> Vec<Event> {
    let mut events = Vec::new(page.alloc);
    for part in text.split('◊') {
        let event = event_of(page, part);
        page.add(&mut events, event);
    }
    events
}

/// Lets the events of a text happen, and tells whether the session runs then.
fn drive(player: &mut Player, text: &str) {
    let events = events_of(&mut player.page, text);
    let done = player.session.drive(&events);
    player.page.done(done);
    write_session(player);
    let idle = player.session.machine().is_idle();
    player.page.line(if idle { "idle" } else { "running" });
}

/// Types a line and runs it, its stops answered by `resume_all`.
fn resume(player: &mut Player, text: &str) {
    let (count, text) = next_word(text);
    let line = player.page.bytes_of(text);
    let answer = resume_all(&mut player.session, &line, number(count));
    write_session(player);
    if let Some(stops) = player.page.kept(answer) {
        player.page.count(&stops, " stops");
    }
}

/// Runs what was typed until nothing runs, and answers each stop; counts the stops and all steps, which are at most as
/// many as a line gets.
fn run_on(player: &mut Player) -> (u64, u64) {
    let mut stops = 0_u64;
    for made in 0..player.steps {
        if player.session.machine().is_idle() {
            return (stops, made);
        }
        let stepped = player.session.advance(1);
        if let Some(Progress::Stopped) = player.page.kept(stepped) {
            stops = stops.saturating_add(1);
            feed(player, "→⎕LC");
        }
    }
    (stops, player.steps)
}

/// Types a line and runs it, its stops answered by hand, and counts them and all its steps.
fn answer(player: &mut Player, text: &str) {
    if feed(player, text) {
        let (stops, steps) = run_on(player);
        write_session(player);
        player.page.show(&stops);
        player.page.said(" stops, ", &steps);
        player.page.line(" steps");
    }
}

/// Does what a line asks for, if its word is one of these.
pub fn play(player: &mut Player, word: &str, text: &str) -> bool {
    match word {
        "step" => make_steps(player, text),
        "one" => step_by(player, Way::One),
        "line" => step_by(player, Way::Line(number(text))),
        "idle" => step_by(player, Way::Idle(number(text))),
        "drive" => drive(player, text),
        "resume" => resume(player, text),
        "answer" => answer(player, text),
        _ => return false,
    }
    true
}
