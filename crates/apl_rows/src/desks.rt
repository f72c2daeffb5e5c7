//! Sessions side by side, clear ones at first, at most 64.
//!
//! | Line | What is written |
//! |---|---|
//! | `desk N STEPS READER WRITER TEXT` | what a run over N sessions writes, its error, and how many of nine bytes are left |
//! | `beside N K EVENT◊..` | after events of the sessions K of N: of each session whether it runs, and its output; how many there are |
//! | `short EVENTS STEPS` | what a desk and a session say where memory runs out then |
ghost use Rattle.std.specs.Prelude.{◌≡◌, ◌<◌, true, All};

use crate::page::Page;
use crate::running::{tape_of, write_ran};
use crate::stepping::event_of;
use crate::words::{count, next_word, number};
use crate::writing::write_output;
use apl_desk::{Desk, DeskError};
use apl_machine::Machine;
use apl_runs::run_desk;
use apl_session::{DriveError, Event, Session};

/// The most sessions of a desk.
const MOST: usize = 64;

/// A desk of so many clear sessions.
fn desk_of(page: &mut Page, count: usize) -> Option<Desk> {
    let mut sessions = Vec::new(page.alloc);
    for _ in 0..count {
        page.add(
            &mut sessions,
            Session::new(page.alloc, Machine::new(page.alloc)),
        );
    }
    if sessions.len() > MOST {
        page.unknown();
        return None;
    }
    Some(Desk::new(sessions))
}

/// Writes a run over so many clear sessions.
fn write_run_of(page: &mut Page, text: &str) {
    let (sessions, text) = next_word(text);
    let (steps, text) = next_word(text);
    let (reading, text) = next_word(text);
    let (writing, text) = next_word(text);
    let mut reader = tape_of(page.bytes_of(text), reading);
    let mut writer = tape_of(Vec::new(page.alloc), writing);
    if let Some(desk) = desk_of(page, count(sessions)) {
        let ended = run_desk(page.alloc, desk, &mut reader, &mut writer, number(steps));
        write_ran(page, ended.err(), &mut reader, &mut writer);
    }
}

/// The events between the marks `◊`, each behind the number of its session.
fn pairs_of(page: &mut Page, text: &str) -> Vec<(usize, Event)> {
    let mut pairs = Vec::new(page.alloc);
    for part in text.split('◊') {
        let (number, text) = next_word(part);
        let event = event_of(page, text);
        page.add(&mut pairs, (count(number), event));
    }
    pairs
}

/// Whether all events are those of sessions that are there.
fn are_there(pairs: &[(usize, Event)], count: usize) -> bool
    ensures { result ≡ true → All (λ p. p.0 < count) pairs.now }
{
    pairs.iter().all(|pair| pair.0 < count)
}

/// Lets the events happen, if their sessions are there.
fn drive(page: &mut Page, desk: &mut Desk, pairs: &[(usize, Event)]) {
    if !are_there(pairs, desk.len()) {
        return page.unknown();
    }
    page.done(desk.drive(pairs));
}

/// Writes whether a session is there, and whether it runs.
fn write_state(page: &mut Page, desk: &Desk, number: usize) {
    page.show(&number);
    match desk.session(number) {
        Some(session) if session.machine().is_idle() => page.line(" idle"),
        Some(_) => page.line(" running"),
        None => page.line(" none"),
    }
}

/// Writes what each session of a desk came to by its events, and how many there are.
fn write_beside(page: &mut Page, text: &str) {
    let (sessions, text) = next_word(text);
    let pairs = pairs_of(page, text);
    let Some(mut desk) = desk_of(page, count(sessions)) else {
        return;
    };
    drive(page, &mut desk, &pairs);
    for number in 0..desk.len() + 1 {
        write_state(page, &desk, number);
        if number < desk.len() {
            write_output(page, &desk.take_output(number));
        }
    }
    page.count(&desk.into_sessions().len(), " sessions");
}

/// Writes what a desk and a session say where memory runs out after so many events and steps.
fn write_short(page: &mut Page, text: &str) {
    let (events, steps) = next_word(text);
    let (events, steps) = (count(events), number(steps));
    page.refuse(&DeskError {
        pair: events,
        steps,
    });
    page.refuse(&DriveError {
        event: events,
        steps,
    });
}

/// Does what a line asks for, if its word is one of these.
pub fn play(page: &mut Page, word: &str, text: &str) -> bool {
    match word {
        "desk" => write_run_of(page, text),
        "beside" => write_beside(page, text),
        "short" => write_short(page, text),
        _ => return false,
    }
    true
}
