//! Calls of the crates of arrays, with the index origin 1. Arrays are written as `2 3:1 2 3 4 5 6`, `:5` or `2:'AB`.
//!
//! | Line | What is written |
//! |---|---|
//! | `array A` | the array as its copy, and as its elements come one after another |
//! | `at A◊INDEX◊..` | the element at each index list |
//! | `limits SHAPE`, `empty N` | whether an array may have the shape; the array of the shape 0 N |
//! | `equal A◊B` | whether the arrays are equal |

use crate::page::Page;
use crate::words::{count, find, next_part};
use crate::writing::{write_cell, write_cells};
use apl_arrays::{Array, Ravel, within_limits};
use apl_scalar::Dyadic;
use arrayvec::ArrayVec;

/// Writes an array as its copy, and its elements.
fn write_array_of(page: &mut Page, text: &str) {
    let Some(array) = page.array(text) else {
        return;
    };
    page.answer(array.copy());
    page.said("rank ", &array.rank());
    page.mark(',');
    let cells = page.list(array.iter().collect(page.alloc));
    write_cells(page, &cells);
}

/// Writes the elements of an array at index lists.
fn write_elements(page: &mut Page, text: &str) {
    let (first, text) = next_part(text);
    let Some(array) = page.array(first) else {
        return;
    };
    for part in text.split('◊') {
        let index = page.counts(part);
        write_cell(page, array.at(&index));
    }
    page.end();
}

/// Writes whether an array may have a shape.
fn write_limits(page: &mut Page, text: &str) {
    let shape = page.counts(text);
    page.done_as(within_limits(&shape), "within");
}

/// Writes the array of no characters whose axes are of the length 0 and another.
fn write_empty(page: &mut Page, text: &str) {
    let mut shape = ArrayVec::new();
    shape.push(0);
    shape.push(count(text));
    let none = Ravel::Chars(Vec::new(page.alloc));
    page.answer(Array::new(page.alloc, shape, none));
}

/// Writes whether the arrays on both sides of a mark are equal.
fn write_equal(page: &mut Page, text: &str) {
    let (first, second) = next_part(text);
    let Some(first) = page.array(first) else {
        return;
    };
    if let Some(second) = page.array(second) {
        page.line(if first == second {
            "equal"
        } else {
            "different"
        });
    }
}

/// The scalar functions of two arguments by their symbols.
const DYADIC: [(&str, Dyadic); 18] = [
    ("+", Dyadic::Plus),
    ("-", Dyadic::Minus),
    ("×", Dyadic::Times),
    ("÷", Dyadic::Divide),
    ("*", Dyadic::Power),
    ("⌈", Dyadic::Maximum),
    ("⌊", Dyadic::Minimum),
    ("|", Dyadic::Residue),
    ("<", Dyadic::Less),
    ("≤", Dyadic::NotGreater),
    ("=", Dyadic::Equal),
    ("≥", Dyadic::NotLess),
    (">", Dyadic::Greater),
    ("≠", Dyadic::NotEqual),
    ("∧", Dyadic::And),
    ("∨", Dyadic::Or),
    ("⍲", Dyadic::Nand),
    ("⍱", Dyadic::Nor),
];

/// The scalar function of two arguments that a symbol is.
pub fn dyadic_of(word: &str) -> Option<Dyadic> {
    find(&DYADIC, word)
}

/// The index list whose slots stand between the marks.
pub fn slots(page: &mut Page, text: &str) -> Vec<Option<Array>> {
    let mut slots = Vec::new(page.alloc);
    for part in text.split('◊') {
        let slot = if part == "-" { None } else { page.array(part) };
        page.add(&mut slots, slot);
    }
    slots
}

/// Does what a line asks for, if its word is one of these.
pub fn play(page: &mut Page, word: &str, text: &str) -> bool {
    match word {
        "array" => write_array_of(page, text),
        "at" => write_elements(page, text),
        "limits" => write_limits(page, text),
        "empty" => write_empty(page, text),
        "equal" => write_equal(page, text),
        _ => return false,
    }
    true
}
