//! What comes of rows, as it is written.

use apl_charset::{Ch, Text};
use apl_symbols::Name;
use std::alloc::{AllocError, Global};
use std::fmt::Display;

/// What is written on a page by itself.
pub trait Shown {
    fn show_on(&self, page: &mut Page);
}

impl Shown for Text {
    fn show_on(&self, page: &mut Page) {
        page.text('|', self.as_slice());
    }
}

/// Names, each with whether it is that of a function.
impl Shown for Vec<(Name, bool)> {
    fn show_on(&self, page: &mut Page) {
        for (name, is_function) in self {
            page.named("", name.as_slice());
            page.line(if *is_function { "function" } else { "variable" });
        }
    }
}

/// What is written of a row. Where memory runs out something is left out, and the page tells so.
#[derive(Drop)]
pub struct Page {
    pub alloc: Global,
    pub text: String,
    pub is_short: bool,
}

impl Page {
    /// An empty page.
    pub fn new(alloc: Global) -> Page {
        Page {
            alloc,
            text: String::new(alloc),
            is_short: false,
        }
    }

    /// Notes whether memory ran out.
    pub fn note(&mut self, written: Result<(), AllocError>) {
        if written.is_err() {
            self.is_short = true;
        }
    }

    /// Writes a text.
    pub fn put(&mut self, text: &str) {
        let written = self.text.push_str(text);
        self.note(written);
    }

    /// Writes a character.
    pub fn mark(&mut self, c: char) {
        let written = self.text.push(c);
        self.note(written);
    }

    /// Writes what a value is shown as.
    pub fn show<T: Display>(&mut self, value: &T) {
        let written = write!(self.text, "{value}");
        self.note(written);
    }

    /// Writes a byte in two hexadecimal digits.
    pub fn digits(&mut self, byte: u8) {
        let written = write!(self.text, "{byte:02x}");
        self.note(written);
    }

    /// Ends the line.
    pub fn end(&mut self) {
        self.mark('\n');
    }

    /// Writes a text and ends the line.
    pub fn line(&mut self, text: &str) {
        self.put(text);
        self.end();
    }

    /// Writes what a value is shown as, and a text behind it, and ends the line.
    pub fn count<T: Display>(&mut self, value: &T, what: &str) {
        self.show(value);
        self.line(what);
    }

    /// Writes a word and what a value is shown as.
    pub fn said<T: Display>(&mut self, word: &str, value: &T) {
        self.put(word);
        self.show(value);
    }

    /// Writes numbers, a blank between each two.
    pub fn numbers<T: Display>(&mut self, numbers: &[T]) {
        let mut between = "";
        for number in numbers {
            self.said(between, number);
            between = " ";
        }
    }

    /// Writes characters.
    pub fn spell(&mut self, text: &[Ch]) {
        for c in text {
            self.mark(c.code());
        }
    }

    /// Writes characters as a line behind a mark.
    pub fn text(&mut self, mark: char, text: &[Ch]) {
        self.mark(mark);
        self.spell(text);
        self.end();
    }

    /// Writes a word and characters.
    pub fn called(&mut self, word: &str, text: &[Ch]) {
        self.put(word);
        self.spell(text);
    }

    /// Writes a word and what is called so, a blank behind it.
    pub fn named(&mut self, word: &str, name: &[Ch]) {
        self.called(word, name);
        self.mark(' ');
    }

    /// Writes a line of a text, and one that has no line feed behind another mark.
    fn piece(&mut self, line: &str) {
        match line.strip_suffix('\n') {
            Some(line) => self.said("|", &line),
            None => self.said(":", &line),
        }
        self.end();
    }

    /// Writes the lines of bytes that are text.
    pub fn bytes(&mut self, bytes: &[u8]) {
        let Ok(text) = str::from_utf8(bytes) else {
            return self.line("no text");
        };
        for line in text.split_inclusive('\n') {
            self.piece(line);
        }
    }

    /// Writes why a call gives no answer.
    pub fn refuse<E: Display>(&mut self, error: &E) {
        self.count(error, "");
    }

    /// Writes that the words of a line ask for nothing that is known.
    pub fn unknown(&mut self) {
        self.line("unknown");
    }

    /// Writes what a call answers, or why it answers nothing.
    pub fn answer<T: Shown + Drop, E: Display + Drop>(&mut self, answer: Result<T, E>) {
        match answer {
            Ok(value) => value.show_on(self),
            Err(error) => self.refuse(&error),
        }
    }

    /// Writes why a call does nothing, if so.
    pub fn done<E: Display + Drop>(&mut self, done: Result<(), E>) {
        if let Err(error) = done {
            self.refuse(&error);
        }
    }

    /// Writes a word where a call did what it is for, or why it did nothing.
    pub fn done_as<E: Display + Drop>(&mut self, done: Result<(), E>, word: &str) {
        match done {
            Ok(()) => self.line(word),
            Err(error) => self.refuse(&error),
        }
    }

    /// What a call answers; where it answers nothing, writes why.
    pub fn kept<T: Drop, E: Display + Drop>(&mut self, answer: Result<T, E>) -> Option<T> {
        match answer {
            Ok(value) => Some(value),
            Err(error) => {
                self.refuse(&error);
                None
            }
        }
    }

    /// A list, an empty one out of memory.
    pub fn list<T: Drop>(&mut self, list: Result<Vec<T>, AllocError>) -> Vec<T> {
        match list {
            Ok(list) => list,
            Err(_) => {
                self.is_short = true;
                Vec::new(self.alloc)
            }
        }
    }

    /// Adds to a list.
    pub fn add<T: Drop>(&mut self, list: &mut Vec<T>, item: T) {
        if list.push(item).is_err() {
            self.is_short = true;
        }
    }
}
