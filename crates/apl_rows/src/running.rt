//! Runs over devices in memory, and calls of devices. A tape's settings are `-`, or some of `most=N`, the bytes that a call
//! moves at most, and `fails=N`, the calls after which one fails.
//!
//! | Line | What is written |
//! |---|---|
//! | `run STEPS READER WRITER TEXT` | what a run on a clear workspace writes, its error, and how many of nine bytes are left |
//! | `resumed STEPS READER WRITER TEXT` | the same of a run whose stops are answered |
//! | `tape read TAPE TEXT`, `tape write TAPE HELD;TEXT` | what a byte and then nine are read as; what a tape holds after a text is written |

use crate::page::Page;
use crate::words::{count, next_half, next_word, number};
use apl_devices::{read_byte, write_all};
use apl_machine::Machine;
use apl_runs::{Failed, RunError, Source, Tape, run, run_resumed};

/// A tape with another setting.
fn set(tape: Tape, setting: &str) -> Tape {
    match setting.split_once('=') {
        Some(("most", word)) => tape.moving_at_most(count(word)),
        Some(("fails", word)) => tape.failing_after(number(word)),
        _ => tape,
    }
}

/// A tape of these bytes with these settings.
pub fn tape_of(bytes: Vec<u8>, settings: &str) -> Tape {
    let mut tape = Tape::new(bytes);
    for setting in settings.split(',') {
        tape = set(tape, setting);
    }
    tape
}

/// Writes what a run wrote, how it ended, and how many of nine bytes its reader still has.
pub fn write_ran(page: &mut Page, end: Option<RunError>, reader: &mut Tape, writer: &mut Tape) {
    page.bytes(writer.bytes());
    match end {
        Some(error) => page.show(&error),
        None => page.put("ended"),
    }
    page.put(", ");
    write_count(page, reader.read(&mut [0; 9]), " left");
}

/// Writes a run over a text on a clear workspace, whose stops are answered or end their lines.
fn write_run_of(page: &mut Page, resumes: bool, text: &str) {
    let (steps, text) = next_word(text);
    let (reading, text) = next_word(text);
    let (writing, text) = next_word(text);
    let mut reader = tape_of(page.bytes_of(text), reading);
    let mut writer = tape_of(Vec::new(page.alloc), writing);
    let machine = Machine::new(page.alloc);
    let ended = if resumes {
        run_resumed(page.alloc, machine, &mut reader, &mut writer, number(steps))
    } else {
        run(page.alloc, machine, &mut reader, &mut writer, number(steps))
    };
    write_ran(page, ended.err(), &mut reader, &mut writer);
}

/// Writes what reading a byte answers.
fn write_byte(page: &mut Page, answer: Result<Option<u8>, Failed>) {
    match answer {
        Ok(Some(byte)) => page.said("byte ", &byte),
        Ok(None) => page.put("end"),
        Err(Failed) => page.put("failed"),
    }
    page.put(", ");
}

/// Writes how many bytes a call of a device moved, if it didn't fail.
fn write_count(page: &mut Page, answer: Result<usize, Failed>, what: &str) {
    match answer {
        Ok(count) => page.count(&count, what),
        Err(Failed) => page.line("failed"),
    }
}

/// Writes what a byte and then nine of a tape are read as.
fn write_reads(page: &mut Page, settings: &str, text: &str) {
    let mut tape = tape_of(page.bytes_of(text), settings);
    write_byte(page, read_byte(&mut tape));
    write_count(page, tape.read(&mut [0; 9]), " bytes");
}

/// Writes a text to a tape, and what the tape holds then.
fn write_held(page: &mut Page, settings: &str, text: &str) {
    let (prefix, text) = next_half(text);
    let mut tape = tape_of(page.bytes_of(prefix), settings);
    let text = page.bytes_of(text);
    match write_all(&mut tape, &text) {
        Ok(()) => page.line("written"),
        Err(Failed) => page.line("failed"),
    }
    page.bytes(tape.bytes());
}

/// Writes what a tape answers.
fn write_tape(page: &mut Page, text: &str) {
    let (word, text) = next_word(text);
    let (settings, text) = next_word(text);
    match word {
        "read" => write_reads(page, settings, text),
        "write" => write_held(page, settings, text),
        _ => page.unknown(),
    }
}

/// Does what a line asks for, if its word is one of these.
pub fn play(page: &mut Page, word: &str, text: &str) -> bool {
    match word {
        "run" => write_run_of(page, false, text),
        "resumed" => write_run_of(page, true, text),
        "tape" => write_tape(page, text),
        _ => return false,
    }
    true
}
