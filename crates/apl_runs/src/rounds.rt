// Rounds over the sessions of a desk.
ghost use Rattle.std.specs.Prelude.{◌≡◌, ◌≢◌, ◌==◌, ◌++◌, ◌<◌, ◌^◌, ℕ, length, map, IfOk, IfSome, OnOk, MatchOption, None, Some, codes, decimal, string_bytes};
ghost use Rattle.std.specs.List.{position};
ghost use Rattle.apl_session.specs.Events.{after_event};
ghost use Rattle.apl_session.specs.Views.{event as event_view};
ghost use Rattle.apl_runs.specs.Output.{labelled, silent};
ghost use Rattle.apl_runs.specs.Rounds as model;
ghost use Rattle.apl_runs.specs.Runs.{Writes, writer_failed};

use crate::lines::{write_lines, write_text};
use crate::listener::Listener;
use crate::runs::RunError;
use apl_desk::Desk;
use apl_devices::Sink;
use apl_session::{Event, FeedError, Session};
use itoa::Buffer;
use std::alloc::{AllocError, Global};
use std::marker::Model;

/// The sessions of a desk that lines are typed to. Contracts see their states.
#[derive(Drop)]
pub struct Board {
    sessions: Vec<Session>,
}

impl Model for Board {
    ghost use Rattle.std.specs.Prelude.{length, ◌≤◌};
    ghost use Rattle.apl_runs.specs.Rounds as model;

    ghost Value = { model.Board };

    ghost view = { λ b. model.board b.sessions.items };

    ghost invariant = { λ b. length b.sessions.items ≤ 64 };
}

/// The place of the first blank.
fn blank_at(line: &[u8]) -> Option<usize>
    ensures place { result ≡ position (λ b. b == 32) line.now }
    ensures within { IfSome result (λ at. at < length line.now) }
{
    line.iter().position(|byte| *byte == b' ')
}

/// The number that a text is in decimal.
fn number_of(text: &[u8]) -> Option<usize>
    ensures { MatchOption result ((n : ℕ) → n < 2 ^ 64 → text.now ≢ decimal n) (λ n. (n < 2 ^ 64) × (text.now ≡ decimal n)) }
{
    let number = str::from_utf8(text).ok()?.parse::<usize>().ok()?;
    // A sign and leading zeros are parsed too, but are in no label.
    let mut digits = Buffer::new();
    if digits.format(number).as_bytes() == text {
        Some(number)
    } else {
        None
    }
}

/// What a line says to one of so many sessions: a number and the text for it.
#[tactic(auto, using(crate::proofs::Spoken::speaking))]
fn spoken(line: &[u8], count: usize) -> Option<(usize, &[u8])>
    ensures said { MatchOption result (model.spoken count line.now ≡ None)
        (λ said. model.spoken count line.now ≡ Some (record { number = said.0; text = said.1.now })) }
    ensures within { IfSome result (λ said. said.0 < count) }
{
    let (digits, rest) = line.split_at(blank_at(line)?);
    let (_, text) = rest.split_at(1);
    let number = number_of(digits)?;
    if number < count {
        Some((number, text))
    } else {
        None
    }
}

/// What stands before the lines of a session: its number and a blank.
fn label(alloc: Global, number: usize) -> Result<String, AllocError>
    ensures { IfOk result (λ s. string_bytes s ≡ model.label number) }
{
    format!(in alloc; "{number} ")
}

/// Answers a line for a session that runs.
fn write_busy<W: Sink>(alloc: Global, number: usize, writer: &mut W) -> Result<(), RunError>
    ensures wrote { Writes result (model.label number ++ codes "BUSY\n") W.tells (W.written writer.old) (W.written writer.new) }
    ensures writer { W.failed writer.new ≡ writer_failed result (W.failed writer.old) }
{
    let mut text = label(alloc, number)?;
    text.push_str("BUSY\n")?;
    write_text(writer, text.as_bytes())
}

/// Types a line to the session that it is for, or answers it where there is none or it runs.
fn take_line<W: Sink>(
    alloc: Global,
    sessions: &mut [Session],
    line: &[u8],
    writer: &mut W,
) -> Result<(), RunError>
    ensures state { OnOk result (sessions.new ≡ model.fed_by sessions.old (model.spoken (length sessions.old) line.now)) }
    ensures wrote { Writes result (model.answer_to sessions.old (model.spoken (length sessions.old) line.now))
        W.tells (W.written writer.old) (W.written writer.new) }
    ensures writer { W.failed writer.new ≡ writer_failed result (W.failed writer.old) }
{
    let Some((number, text)) = spoken(line, sessions.len()) else {
        return write_text(writer, b"NO SESSION\n");
    };
    match sessions[number].feed(text) {
        Ok(()) => Ok(()),
        Err(FeedError::Busy) => write_busy(alloc, number, writer),
        Err(FeedError::Memory) => Err(RunError::Memory),
    }
}

/// Gives a session an event, and writes what it has to say under its number. After an error a prefix
/// of that is written.
fn serve<W: Sink>(
    alloc: Global,
    number: usize,
    session: &mut Session,
    event: &Event,
    writer: &mut W,
) -> Result<(), RunError>
    ensures state { OnOk result (session.new ≡ silent (after_event session.old (event_view event.now))) }
    ensures wrote { Writes result (labelled (model.label number) (after_event session.old (event_view event.now)).output)
        W.tells (W.written writer.old) (W.written writer.new) }
    ensures writer { W.failed writer.new ≡ writer_failed result (W.failed writer.old) }
{
    if session.apply(event).is_err() {
        return Err(RunError::Memory);
    }
    let lines = session.take_output();
    if lines.is_empty() {
        return Ok(());
    }
    write_lines(alloc, writer, label(alloc, number)?.as_str(), &lines)
}

/// Gives each session an event, by ascending number, and writes what it has to say. After an error
/// a prefix of that is written.
#[tactic(auto, using(crate::proofs::Served::serving))]
fn serve_all<W: Sink>(
    alloc: Global,
    sessions: &mut [Session],
    event: &Event,
    writer: &mut W,
) -> Result<(), RunError>
    ensures state { OnOk result (sessions.new ≡ map silent (map (λ s. after_event s (event_view event.now)) sessions.old)) }
    ensures wrote { Writes result (model.outputs 0 (map (λ s. after_event s (event_view event.now)) sessions.old))
        W.tells (W.written writer.old) (W.written writer.new) }
    ensures writer { W.failed writer.new ≡ writer_failed result (W.failed writer.old) }
{
    for number in 0..sessions.len() {
        serve(alloc, number, &mut sessions[number], event, writer)?;
    }
    Ok(())
}

/// A round: a line is taken, and then each session makes at most so many steps. After an error a
/// prefix of what is to be written is written.
fn round<W: Sink>(
    alloc: Global,
    sessions: &mut [Session],
    line: &[u8],
    steps: u64,
    writer: &mut W,
) -> Result<(), RunError>
    ensures state { OnOk result (sessions.new ≡ (model.after_round steps (model.board sessions.old) line.now).sessions) }
    ensures wrote { Writes result (model.after_round steps (model.board sessions.old) line.now).unwritten
        W.tells (W.written writer.old) (W.written writer.new) }
    ensures writer { W.failed writer.new ≡ writer_failed result (W.failed writer.old) }
{
    take_line(alloc, sessions, line, writer)?;
    serve_all(alloc, sessions, &Event::Steps(steps), writer)
}

/// The end of the input: each session that runs is interrupted. After an error a prefix of what is to
/// be written is written.
fn last_round<W: Sink>(
    alloc: Global,
    sessions: &mut [Session],
    writer: &mut W,
) -> Result<(), RunError>
    ensures state { OnOk result (sessions.new ≡ (model.after_end (model.board sessions.old)).sessions) }
    ensures wrote { Writes result (model.after_end (model.board sessions.old)).unwritten W.tells (W.written writer.old) (W.written writer.new) }
    ensures writer { W.failed writer.new ≡ writer_failed result (W.failed writer.old) }
{
    serve_all(alloc, sessions, &Event::Interrupt, writer)
}

impl Board {
    /// The sessions of a desk.
    pub fn new(desk: Desk) -> Board
        ensures { result ≡ model.board desk }
    {
        // A desk has at most 64 sessions.
        prove!(desk.len() <= 64);
        Board {
            sessions: desk.into_sessions(),
        }
    }

    /// The sessions as a desk.
    pub fn into_desk(self) -> Desk
        ensures { result ≡ self.sessions }
    {
        let Board { sessions } = self;
        Desk::new(sessions)
    }
}

/// A way of doing lines: each is typed to the session that it is for, and then each session makes at
/// most so many steps.
#[derive(Clone, Copy)]
pub struct Rounds {
    pub steps: u64,
}

impl Listener for Rounds {
    ghost use Rattle.std.specs.Prelude.{⊤};
    ghost use Rattle.apl_runs.specs.Rounds.{rounds};

    type On = Board;

    ghost way = { λ r. rounds r.steps };

    ghost IsBetweenLines = { λ _. ⊤ };

    fn hear<W: Sink>(
        &self,
        alloc: Global,
        board: &mut Board,
        line: &[u8],
        writer: &mut W,
    ) -> Result<(), RunError> {
        round(alloc, &mut board.sessions, line, self.steps, writer)
    }

    fn end<W: Sink>(
        &self,
        alloc: Global,
        board: &mut Board,
        writer: &mut W,
    ) -> Result<(), RunError> {
        last_round(alloc, &mut board.sessions, writer)
    }
}
