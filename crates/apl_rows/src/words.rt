//! The words of a row.

use crate::page::Page;
use apl_arrays::{Array, NumberVec, Ravel, is_in_bounds, size};
use apl_charset::{Ch, Text};
use apl_symbols::{Class, Name};
use std::alloc::Global;

/// The first word, and what stands behind the blank after it.
pub fn next_word(text: &str) -> (&str, &str) {
    text.split_once(' ').unwrap_or((text, ""))
}

/// What stands before the first mark `◊`, and behind it.
pub fn next_part(text: &str) -> (&str, &str) {
    text.split_once('◊').unwrap_or((text, ""))
}

/// What stands before the first semicolon, and behind it.
pub fn next_half(text: &str) -> (&str, &str) {
    text.split_once(';').unwrap_or((text, ""))
}

/// What a table has for a word.
pub fn find<T: Copy>(table: &[(&str, T)], word: &str) -> Option<T> {
    for (found, value) in table {
        if *found == word {
            return Some(*value);
        }
    }
    None
}

/// The number that a word is; a word that is none counts as 0.
pub fn number(word: &str) -> u64 {
    word.parse().unwrap_or(0)
}

/// The same for places and lengths.
pub fn count(word: &str) -> usize {
    word.parse().unwrap_or(0)
}

/// The same for elements of arrays.
pub fn element(word: &str) -> i64 {
    word.parse().unwrap_or(0)
}

/// The class of a letter.
fn class_of(letter: char) -> Option<Class> {
    match letter {
        'V' => Some(Class::Variable),
        'N' => Some(Class::Niladic),
        'F' => Some(Class::Function),
        _ => None,
    }
}

/// The byte of two hexadecimal digits.
fn byte(digits: &[u8]) -> u8 {
    match str::from_utf8(digits) {
        Ok(digits) => u8::from_str_radix(digits, 16).unwrap_or(0),
        Err(_) => 0,
    }
}

/// The array of a shape and elements, where they fit and are within the limits.
fn shaped(alloc: Global, shape: &[usize], ravel: Ravel) -> Option<Array> {
    if is_in_bounds(shape) && size(shape) == ravel.len() {
        Array::from_shape(alloc, shape, ravel).ok()
    } else {
        None
    }
}

impl Page {
    /// The counts of the words of a text.
    pub fn counts(&mut self, text: &str) -> Vec<usize> {
        let mut counts = Vec::new(self.alloc);
        for word in text.split_whitespace() {
            self.add(&mut counts, count(word));
        }
        counts
    }

    /// The characters of a text; those outside the set are left out.
    pub fn characters(&mut self, text: &str) -> Vec<Ch> {
        let characters = text.chars().filter_map(Ch::new).collect(self.alloc);
        self.list(characters)
    }

    /// The same as a text.
    pub fn text_of(&mut self, text: &str) -> Text {
        Text::new(self.characters(text))
    }

    /// The texts between the marks `◊`.
    pub fn parts(&mut self, text: &str) -> Vec<Text> {
        let mut texts = Vec::new(self.alloc);
        for part in text.split('◊') {
            let text = self.text_of(part);
            self.add(&mut texts, text);
        }
        texts
    }

    /// The name of these characters, if they are few enough.
    pub fn name(&mut self, word: &str) -> Option<Name> {
        let letters = self.characters(word);
        let name = Name::new(&letters);
        if name.is_none() {
            self.unknown();
        }
        name
    }

    /// The classes of the letters `V`, `N` and `F`.
    pub fn classes(&mut self, word: &str) -> Vec<Class> {
        let classes = word.chars().filter_map(class_of).collect(self.alloc);
        self.list(classes)
    }

    /// Adds bytes.
    pub fn extend(&mut self, bytes: &mut Vec<u8>, more: &[u8]) {
        let extended = bytes.extend_from_slice(more);
        self.note(extended);
    }

    /// The bytes that a text stands for: `◊` is a line feed, `␍` a carriage return, and `�` a byte that is no text.
    pub fn bytes_of(&mut self, text: &str) -> Vec<u8> {
        let mut bytes = Vec::new(self.alloc);
        for c in text.chars() {
            match c {
                '◊' => self.extend(&mut bytes, b"\n"),
                '␍' => self.extend(&mut bytes, b"\r"),
                '�' => self.extend(&mut bytes, b"\xff"),
                c => self.extend(&mut bytes, c.encode_utf8(&mut [0; 4]).as_bytes()),
            }
        }
        bytes
    }

    /// The bytes of hexadecimal digits, two a byte.
    pub fn hexadecimal(&mut self, text: &str) -> Vec<u8> {
        let bytes = text
            .as_bytes()
            .chunks_exact(2)
            .map(byte)
            .collect(self.alloc);
        self.list(bytes)
    }

    /// The numbers of the words of a text.
    fn elements(&mut self, text: &str) -> Vec<i64> {
        let mut elements = Vec::new(self.alloc);
        for word in text.split_whitespace() {
            self.add(&mut elements, element(word));
        }
        elements
    }

    /// So many numbers from 0 on.
    fn first_numbers(&mut self, most: i64) -> Vec<i64> {
        let numbers = (0..most).collect(self.alloc);
        self.list(numbers)
    }

    /// The numbers of the words of a text, or so many from 0 on behind `⍳`.
    fn numbers_of(&mut self, text: &str) -> Vec<i64> {
        match text.strip_prefix('⍳') {
            Some(most) => self.first_numbers(element(most)),
            None => self.elements(text),
        }
    }

    /// Numbers in the narrowest type that holds them.
    fn squeezed(&mut self, numbers: Vec<i64>) -> Ravel {
        match NumberVec::squeezed(self.alloc, numbers) {
            Ok(kept) => Ravel::Nums(kept),
            Err(error) => {
                self.note(Err(error));
                Ravel::wide(Vec::new(self.alloc))
            }
        }
    }

    /// The elements behind a shape: characters behind a quote, or numbers.
    fn ravel(&mut self, text: &str) -> Ravel {
        match text.strip_prefix('\'') {
            Some(text) => Ravel::Chars(self.characters(text)),
            None => {
                let numbers = self.numbers_of(text);
                self.squeezed(numbers)
            }
        }
    }

    /// The array of a text, as `2 3:1 2 3 4 5 6`, `:5`, `2:'AB` or `2 2:⍳4`: a shape, and behind the colon its elements.
    pub fn array(&mut self, text: &str) -> Option<Array> {
        let (shape, text) = text.split_once(':').unwrap_or(("", text));
        let ravel = self.ravel(text);
        let shape = self.counts(shape);
        let array = shaped(self.alloc, &shape, ravel);
        if array.is_none() {
            self.unknown();
        }
        array
    }
}
