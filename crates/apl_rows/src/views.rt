//! Calls of views, and of the operators over them. A view is an array and what is done to the view of it, one after another:
//! `reversed AXIS`, `cut AXIS FROM LEN`, `turned AXIS..`, counted from 0, and `at INDEX..`, which writes an element.
//!
//! | Line | What is written |
//! |---|---|
//! | `view A◊ACT◊..` | the array that the view shows, and its elements as they come one after another |
//! | `reduce F ALONG A◊ACT◊..`, `scan` likewise | the value along `first`, `last` or an axis from 1 on |
//! | `outer F VIEW;VIEW`, `inner F G VIEW;VIEW` | the product |
ghost use Rattle.std.specs.Prelude.{◌≡◌, ◌<◌, true, All};

use crate::arrays::{dyadic_of, slots};
use crate::page::Page;
use crate::words::{next_half, next_part, next_word};
use crate::writing::{write_cell, write_cells};
use apl_arrays::{Along, Array, Origin, View};
use apl_operators::{inner, outer, reduce, scan};
use apl_scalar::Dyadic;

/// The view with an axis reversed, if it has that axis.
fn reversed<'a>(view: View<'a>, numbers: &[usize]) -> View<'a> {
    match numbers {
        [axis] if *axis < view.rank() => view.reversed(*axis),
        _ => view,
    }
}

/// The view with an axis cut, if that axis is as long.
fn cut<'a>(view: View<'a>, axis: usize, from: usize, len: usize) -> View<'a> {
    let shape = view.shape();
    let lengths = shape.as_slice();
    if axis < lengths.len() && from <= lengths[axis] && len <= lengths[axis] - from {
        view.cut(axis, from, len)
    } else {
        view
    }
}

/// The same by an axis, a place and a length.
fn cut_by<'a>(view: View<'a>, numbers: &[usize]) -> View<'a> {
    match numbers {
        [axis, from, len] => cut(view, *axis, *from, *len),
        _ => view,
    }
}

/// Whether numbers are those of axes.
fn are_axes(axes: &[usize], rank: usize) -> bool
    ensures { result ≡ true → All (λ m. m < rank) axes.now }
{
    axes.iter().all(|axis| *axis < rank)
}

/// The view with its axes in other places, if there is a place for each.
fn turned<'a>(view: View<'a>, axes: &[usize]) -> View<'a> {
    let rank = view.rank();
    if axes.len() != rank || !are_axes(axes, rank) {
        return view;
    }
    view.turned(axes)
}

/// The view after what a text says is done to it; an element that is looked at is written.
fn after<'a>(page: &mut Page, view: View<'a>, text: &str) -> View<'a> {
    let (word, text) = next_word(text);
    let numbers = page.counts(text);
    match word {
        "reversed" => reversed(view, &numbers),
        "cut" => cut_by(view, &numbers),
        "turned" => turned(view, &numbers),
        "at" => {
            write_cell(page, view.at(&numbers));
            page.end();
            view
        }
        _ => view,
    }
}

/// The view of an array after what is done to it between the marks.
fn view_of<'a>(page: &mut Page, array: &'a Array, text: &str) -> View<'a> {
    let mut view = View::whole(array);
    for part in text.split('◊') {
        view = after(page, view, part);
    }
    view
}

/// Writes the rank of a view, its kind, and its elements, one after another.
fn write_elements(page: &mut Page, view: &View<'_>) {
    page.said("rank ", &view.rank());
    page.put(if view.is_numeric() {
        ", numbers,"
    } else {
        ", characters,"
    });
    let cells = page.list(view.iter().collect(page.alloc));
    write_cells(page, &cells);
}

/// Writes the array that a view shows, and its elements.
fn write_view_of(page: &mut Page, text: &str) {
    let (first, text) = next_part(text);
    if let Some(array) = page.array(first) {
        let view = view_of(page, &array, text);
        page.answer(view.copied(page.alloc));
        write_elements(page, &view);
    }
}

/// Writes the reduction or the scan of a view.
fn write_along(page: &mut Page, scans: bool, function: Dyadic, along: Along<'_>, view: &View<'_>) {
    let answer = if scans {
        scan(page.alloc, function, along, view, Origin::One)
    } else {
        reduce(page.alloc, function, along, view, Origin::One)
    };
    page.answer(answer);
}

/// The same along the axis that a word says.
fn write_along_word(page: &mut Page, scans: bool, function: Dyadic, word: &str, view: &View<'_>) {
    match word {
        "first" => write_along(page, scans, function, Along::First, view),
        "last" => write_along(page, scans, function, Along::Last, view),
        _ => {
            let axes = slots(page, word);
            write_along(page, scans, function, Along::Named(&axes), view);
        }
    }
}

/// Writes the reduction or the scan of a view: the function's symbol first, then the axis.
fn write_operated(page: &mut Page, scans: bool, text: &str) {
    let (symbol, text) = next_word(text);
    let (along, text) = next_word(text);
    let (first, text) = next_part(text);
    let Some(function) = dyadic_of(symbol) else {
        return page.unknown();
    };
    if let Some(array) = page.array(first) {
        let view = view_of(page, &array, text);
        write_along_word(page, scans, function, along, &view);
    }
}

/// The array of a text and what is done to its view.
fn array_in<'a>(page: &mut Page, text: &'a str) -> Option<(Array, &'a str)> {
    let (first, text) = next_part(text);
    Some((page.array(first)?, text))
}

/// Writes the product of the views of two arrays: an inner one, where there is a function that folds.
fn write_product(page: &mut Page, fold: Option<Dyadic>, each: Dyadic, text: &str) {
    let (left, right) = next_half(text);
    let (Some((a, left)), Some((b, right))) = (array_in(page, left), array_in(page, right)) else {
        return;
    };
    let a = view_of(page, &a, left);
    let b = view_of(page, &b, right);
    let answer = match fold {
        Some(fold) => inner(page.alloc, fold, each, &a, &b),
        None => outer(page.alloc, each, &a, &b),
    };
    page.answer(answer);
}

/// Writes a product, the symbols of its functions first.
fn write_product_of(page: &mut Page, text: &str, folds: bool) {
    let (first, rest) = next_word(text);
    let (second, text) = if folds {
        next_word(rest)
    } else {
        (first, rest)
    };
    let fold = if folds { dyadic_of(first) } else { None };
    match dyadic_of(second) {
        Some(each) if fold.is_some() == folds => write_product(page, fold, each, text),
        _ => page.unknown(),
    }
}

/// Does what a line asks for, if its word is one of these.
pub fn play(page: &mut Page, word: &str, text: &str) -> bool {
    match word {
        "view" => write_view_of(page, text),
        "reduce" => write_operated(page, false, text),
        "scan" => write_operated(page, true, text),
        "outer" => write_product_of(page, text, false),
        "inner" => write_product_of(page, text, true),
        _ => return false,
    }
    true
}
