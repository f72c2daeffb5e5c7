//! Calls of the crate of definitions.
//!
//! | Line | What is written |
//! |---|---|
//! | `header TEXT` | the header as it is shown, or the error's number |
//! | `define HEADER◊LINE◊..` | the function's header, its class and its labels, or the error's number and the line |
//! | `many N HEADER◊LINE◊LAST` | the same as of `define`, where N lines are alike; there is no last one where that is empty |

use crate::page::{Page, Shown};
use crate::words::{count, next_part, next_word};
use crate::writing::write_class;
use apl_charset::Text;
use apl_defn::{Definition, Header, canonical, define, header};

/// A header as it is written.
impl Shown for Header {
    fn show_on(&self, page: &mut Page) {
        page.answer(canonical(page.alloc, self));
    }
}

/// Writes the copy of the header that a text is.
fn write_header(page: &mut Page, text: &str) {
    let text = page.characters(text);
    let answer = header(page.alloc, &text);
    if let Some(header) = page.kept(answer) {
        page.answer(header.copy(page.alloc));
    }
}

/// The header of a function, its class, how many lines it has, and its labels, each with the number of its line.
impl Shown for Definition {
    fn show_on(&self, page: &mut Page) {
        self.header().show_on(page);
        write_class(page, self.class());
        page.said(" of ", &self.len());
        page.line(" lines");
        for (name, line) in self.labels() {
            page.named("label ", name.as_slice());
            page.said("at ", line);
            page.end();
        }
    }
}

/// Writes the function that lines define.
fn write_defined(page: &mut Page, text: &str) {
    let lines = page.parts(text);
    page.answer(define(page.alloc, lines));
}

/// Adds the text of a line.
fn push_text(page: &mut Page, lines: &mut Vec<Text>, line: &str) {
    let text = page.text_of(line);
    page.add(lines, text);
}

/// A header, so many lines of a text, and a last one where that isn't empty.
fn many_lines(page: &mut Page, count: usize, text: &str) -> Vec<Text> {
    let (head, text) = next_part(text);
    let (line, last) = next_part(text);
    let mut lines = page.parts(head);
    for _ in 0..count {
        push_text(page, &mut lines, line);
    }
    if !last.is_empty() {
        push_text(page, &mut lines, last);
    }
    lines
}

/// Writes the function that many lines define.
fn write_many(page: &mut Page, text: &str) {
    let (number, text) = next_word(text);
    let lines = many_lines(page, count(number), text);
    page.answer(define(page.alloc, lines));
}

/// Does what a line asks for, if its word is one of these.
pub fn play(page: &mut Page, word: &str, text: &str) -> bool {
    match word {
        "header" => write_header(page, text),
        "define" => write_defined(page, text),
        "many" => write_many(page, text),
        _ => return false,
    }
    true
}
