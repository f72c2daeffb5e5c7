//! Looks at a machine.

use crate::codes::bound_line;
use crate::page::{Page, Shown};
use crate::words::count;
use crate::writing::{write_class, write_operands, write_value};
use apl_debug::{state_indicator, stops, traces};
use apl_machine::{Level, Machine};
use apl_symbols::Name;
use apl_workspace::{load, save};

/// Writes what the context of this number is doing, from 0 for the newest: its code, how many of its instructions are
/// done, and its operands.
fn write_frame(page: &mut Page, machine: &Machine, text: &str) {
    match machine.frame(count(text)) {
        Some(frame) => {
            frame.code.show_on(page);
            page.count(&frame.done, " done");
            write_operands(page, frame.operands);
        }
        None => page.line("no frame"),
    }
}

/// Writes the class of a name, whether it is that of a global variable, and whether of a global function.
fn write_class_of(page: &mut Page, machine: &Machine, name: &Name) {
    write_class(page, machine.class_of(name));
    if machine.is_variable(name) {
        page.put(", a global variable");
    }
    if machine.definition(name).is_some() {
        page.put(", a global function");
    }
    page.end();
}

/// Writes a vector of lines, if there is one.
fn write_vector(page: &mut Page, word: &str, lines: Option<&[usize]>) {
    page.put(word);
    match lines {
        Some(lines) => page.numbers(lines),
        None => page.put("none"),
    }
    page.end();
}

/// Standing calls, a line each.
impl Shown for Vec<Level> {
    fn show_on(&self, page: &mut Page) {
        for level in self {
            page.named("", level.name.as_slice());
            page.said("at ", &level.line);
            page.line(if level.suspended { ", suspended" } else { "" });
        }
    }
}

/// Writes the code that the cache has of a line, where its names have these classes.
fn write_cached(page: &mut Page, machine: &Machine, text: &str) {
    let Some(bound) = bound_line(page, text) else {
        return;
    };
    match machine.cache().cached(&bound) {
        Some(code) => code.show_on(page),
        None => page.line("not kept"),
    }
}

/// Writes the file that the workspace is saved as.
fn write_saved(page: &mut Page, machine: &Machine) {
    let saved = save(page.alloc, machine);
    if let Some(bytes) = page.kept(saved) {
        page.bytes(&bytes);
    }
}

/// Writes whether a text is a workspace file, or why it is none.
fn write_loaded(page: &mut Page, text: &str) {
    let loaded = load(page.alloc, text.as_bytes());
    if page.kept(loaded).is_some() {
        page.line("loaded");
    }
}

/// Looks at what the name of a text stands for.
fn look_at(page: &mut Page, machine: &Machine, word: &str, text: &str) {
    let Some(name) = page.name(text) else {
        return;
    };
    match word {
        "value" => write_value(page, machine.value(&name)),
        "class" => write_class_of(page, machine, &name),
        _ => {
            write_vector(page, "stops: ", stops(machine, &name));
            write_vector(page, "traces: ", traces(machine, &name));
        }
    }
}

/// Does what a line asks for, if its word is one of these.
pub fn play(page: &mut Page, machine: &Machine, word: &str, text: &str) -> bool {
    match word {
        "frame" => write_frame(page, machine, text),
        "value" | "class" | "watched" => look_at(page, machine, word, text),
        "levels" => page.answer(state_indicator(machine)),
        "globals" => page.answer(machine.globals()),
        "cached" => write_cached(page, machine, text),
        "save" => write_saved(page, machine),
        "load" => write_loaded(page, text),
        _ => return false,
    }
    true
}
