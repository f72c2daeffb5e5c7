//! Calls of the crates of characters, symbols, tokens and faults.
//!
//! | Line | What is written |
//! |---|---|
//! | `tokens TEXT` | each token with its column, or the error |
//! | `spell TEXT` | the text that the tokens of a text are spelled as |
//! | `decode HEX`, `encode TEXT` | how many characters the bytes are, or the fault; the bytes of a text |

use crate::page::{Page, Shown};
use apl_charset::{Ch, Text, decode_line, encode};
use apl_symbols::SystemName;
use apl_tokens::{Kind, Token, TokenError, spell, tokens};
use std::alloc::Global;

/// Writes a system name.
fn write_system(page: &mut Page, name: SystemName) {
    page.put("name ⎕");
    page.put(str::from_utf8(name.letters()).unwrap_or(""));
}

impl Shown for Kind {
    fn show_on(&self, page: &mut Page) {
        match self {
            Kind::Constant(numbers) => page.numbers(numbers.as_slice()),
            Kind::Text(text) => page.called("text ", text.as_slice()),
            Kind::Name(name) => page.called("name ", name.as_slice()),
            Kind::System(name) => write_system(page, *name),
            Kind::Comment(text) => page.called("comment ", text.as_slice()),
            Kind::Symbol(symbol) => page.mark(symbol.glyph().code()),
        }
    }
}

impl Shown for Vec<Token> {
    fn show_on(&self, page: &mut Page) {
        for token in self {
            page.show(&token.at);
            page.mark(' ');
            token.kind.show_on(page);
            page.end();
        }
    }
}

/// Writes the tokens of a text.
fn write_tokens(page: &mut Page, text: &str) {
    let text = page.characters(text);
    page.answer(tokens(page.alloc, &text));
}

/// The text that the tokens of a text are spelled as.
fn spelled(alloc: Global, text: &[Ch]) -> Result<Text, TokenError> {
    let tokens = tokens(alloc, text)?;
    Ok(spell(alloc, &tokens)?)
}

/// Writes the text that the tokens of a text are spelled as.
fn write_spelled(page: &mut Page, text: &str) {
    let text = page.characters(text);
    page.answer(spelled(page.alloc, &text));
}

/// Writes how many characters bytes are.
fn write_decoded(page: &mut Page, text: &str) {
    let bytes = page.hexadecimal(text);
    let answer = decode_line(page.alloc, &bytes);
    if let Some(text) = page.kept(answer) {
        page.count(&text.len(), " characters");
    }
}

/// Bytes in hexadecimal digits.
#[derive(Drop)]
struct Hexadecimal(Vec<u8>);

impl Shown for Hexadecimal {
    fn show_on(&self, page: &mut Page) {
        for byte in &self.0 {
            page.digits(*byte);
        }
        page.end();
    }
}

/// Writes how many characters a text has, and its bytes.
fn write_encoded(page: &mut Page, text: &str) {
    let text = page.characters(text);
    page.show(&text.len());
    page.put(" characters ");
    page.answer(encode(page.alloc, &text).map(Hexadecimal));
}

/// Does what a line asks for, if its word is one of these.
pub fn play(page: &mut Page, word: &str, text: &str) -> bool {
    match word {
        "tokens" => write_tokens(page, text),
        "spell" => write_spelled(page, text),
        "decode" => write_decoded(page, text),
        "encode" => write_encoded(page, text),
        _ => return false,
    }
    true
}
