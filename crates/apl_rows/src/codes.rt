//! Calls of the crates of translations, codes and listings. `CLASSES` are letters, one for each name of the line, or `-`.
//!
//! | Line | What is written |
//! |---|---|
//! | `listing CLASSES TEXT` | the listing of the line's code |
//! | `kinds K LISTING` | what stands on the operand stack after K instructions, its top first |
//! | `assemble LISTING` | how many instructions it lists, or the error's number and the line |
//! | `again LISTING` | the listing of the code that is listed |
//! | `cache ACT◊..` | `keep CLASSES TEXT`, `look CLASSES TEXT`, `first N`: lines of a cache, the last ones the numbers from 0 on |

use crate::page::{Page, Shown};
use crate::words::{count, next_word, number};
use apl_charset::Ch;
use apl_code::Code;
use apl_listing::{Kind, assemble, kinds, listing};
use apl_symbols::Class;
use apl_tokens::{TokenError, tokens};
use apl_translate::{Bound, Cache, bind, translate};
use std::alloc::Global;

/// The bound line of a text, where its names have these classes.
fn bound(alloc: Global, text: &[Ch], classes: &[Class]) -> Result<Bound, TokenError> {
    let tokens = tokens(alloc, text)?;
    Ok(bind(alloc, tokens.as_slice(), classes)?)
}

/// The bound line of classes and a text.
pub fn bound_line(page: &mut Page, text: &str) -> Option<Bound> {
    let (letters, text) = next_word(text);
    let classes = page.classes(letters);
    let text = page.characters(text);
    let answer = bound(page.alloc, &text, &classes);
    page.kept(answer)
}

/// A code as its listing.
impl Shown for Code {
    fn show_on(&self, page: &mut Page) {
        let listed = listing(page.alloc, self);
        if let Some(text) = page.kept(listed) {
            page.bytes(&text);
        }
    }
}

/// Writes the listing of the code of classes and a text.
fn write_listing_of(page: &mut Page, text: &str) {
    if let Some(bound) = bound_line(page, text) {
        page.answer(translate(page.alloc, &bound));
    }
}

/// Writes the listing of what a listing lists.
fn write_again(page: &mut Page, text: &str) {
    let text = page.bytes_of(text);
    page.answer(assemble(page.alloc, &text));
}

/// The code that a text lists.
fn assembled(page: &mut Page, text: &str) -> Option<Code> {
    let text = page.bytes_of(text);
    let answer = assemble(page.alloc, &text);
    page.kept(answer)
}

/// Writes how many instructions a text lists.
fn write_assembled(page: &mut Page, text: &str) {
    if let Some(code) = assembled(page, text) {
        page.count(&code.len(), " instructions");
    }
}

/// Writes which slots of an index list are empty.
fn write_empty_slots(page: &mut Page, slots: &[bool]) {
    page.put("slots");
    for empty in slots {
        page.put(if *empty { " empty" } else { " full" });
    }
    page.end();
}

/// The kinds of operands, a line each.
impl Shown for Vec<Kind> {
    fn show_on(&self, page: &mut Page) {
        for kind in self {
            match kind {
                Kind::Value => page.line("value"),
                Kind::Slots(slots) => write_empty_slots(page, slots.as_slice()),
            }
        }
    }
}

/// Writes what so many instructions of a listing leave on the operand stack.
fn write_kinds(page: &mut Page, text: &str) {
    let (number, text) = next_word(text);
    if let Some(code) = assembled(page, text) {
        page.answer(kinds(page.alloc, &code, count(number)));
    }
}

/// Lets a cache translate the line of classes and a text.
fn keep(page: &mut Page, cache: &mut Cache, text: &str) {
    if let Some(bound) = bound_line(page, text) {
        let done = cache.translate(&bound);
        page.kept(done);
    }
}

/// Lets a cache translate the lines that are numbers, so many from 0 on.
fn keep_numbers(page: &mut Page, cache: &mut Cache, most: u64) {
    for number in 0..most {
        let text = format!(in page.alloc; "- {number}");
        if let Some(text) = page.kept(text) {
            keep(page, cache, text.as_str());
        }
    }
}

/// Writes whether a cache has the code of the line of classes and a text.
fn look(page: &mut Page, cache: &Cache, text: &str) {
    let Some(bound) = bound_line(page, text) else {
        return;
    };
    match cache.cached(&bound) {
        Some(code) => {
            page.put("kept, of ");
            page.count(&code.len(), " instructions");
        }
        None => page.line("not kept"),
    }
}

/// Does something with a cache.
fn act(page: &mut Page, cache: &mut Cache, text: &str) {
    let (word, text) = next_word(text);
    match word {
        "keep" => keep(page, cache, text),
        "first" => keep_numbers(page, cache, number(text)),
        _ => look(page, cache, text),
    }
}

/// Does with a new cache what stands between the marks.
fn write_cache(page: &mut Page, text: &str) {
    let mut cache = Cache::new(page.alloc);
    for part in text.split('◊') {
        act(page, &mut cache, part);
    }
}

/// Does what a line asks for, if its word is one of these.
pub fn play(page: &mut Page, word: &str, text: &str) -> bool {
    match word {
        "listing" => write_listing_of(page, text),
        "kinds" => write_kinds(page, text),
        "assemble" => write_assembled(page, text),
        "again" => write_again(page, text),
        "cache" => write_cache(page, text),
        _ => return false,
    }
    true
}
