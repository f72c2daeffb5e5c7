// Arrays as characters.
ghost use Rattle.std.specs.Prelude.{◌≡◌, ◌≢◌, ◌*◌, ◌≤◌, ◌<◌, ◌++◌, [], ◌∷◌, length, OnOk};
ghost use Rattle.apl_arrays.specs.Answers.{Answers};
ghost use Rattle.apl_arrays.specs.Cells.{IsArray, Numbers, Characters};
ghost use Rattle.apl_arrays.specs.Index.{size_of, bound_of};
ghost use Rattle.apl_arrays.specs.Numbers.{values};
ghost use Rattle.apl_format.specs.Formatted.{formatted, in_limits, text_of};
ghost use Rattle.apl_format.specs.inside.Parts.{line_text, row_texts, rows_text};

use crate::columns::number_widths;
use crate::part::row_at;
use crate::row::{push_aligned, push_numbers};
use crate::width::line_width;
use apl_arrays::{Array, Elements, MAX_ELEMENTS, MAX_RANK, NumberSlice, Ravel, Stop, size};
use apl_charset::Ch;
use apl_faults::Fault;
use arrayvec::ArrayVec;
use std::alloc::{AllocError, Global};

/// Characters in these axes and one more.
fn in_shape(alloc: Global, outer: &[usize], last: usize, characters: Vec<Ch>) -> Result<Array, Stop>
    requires full { length characters.items ≡ size_of (outer.now ++ last ∷ []) }
    requires few_axes { length outer.now < MAX_RANK }
    ensures { Answers (λ a. a) (in_limits (record { shape = outer.now ++ last ∷ []; items = Characters characters.items })) result }
{
    let mut shape = ArrayVec::new();
    for length in outer {
        shape.push(*length);
    }
    shape.push(last);
    Array::new(alloc, shape, Ravel::Chars(characters))
}

/// Numbers in one line.
fn format_line(alloc: Global, numbers: NumberSlice<'_>) -> Result<Array, Stop>
    ensures { Answers (λ a. a) (in_limits (line_text (Numbers (values numbers.entry)))) result }
{
    let width = line_width(numbers)?;
    let mut characters = Vec::with_capacity(alloc, width)?;
    push_numbers(&mut characters, numbers)?;
    in_shape(alloc, &[], width, characters)
}

/// Adds rows of numbers, one directly after the other, each number right-aligned in its column.
fn push_rows(
    characters: &mut Vec<Ch>,
    widths: &[usize],
    numbers: NumberSlice<'_>,
    count: usize,
) -> Result<(), AllocError>
    requires { count * length widths.now ≤ length (values numbers) }
    ensures { OnOk result (characters.new.items ≡ characters.old.items ++ row_texts widths.now count (Numbers (values numbers.entry))) }
{
    let columns = widths.len();
    for row in 0..count {
        push_aligned(characters, widths, row_at(numbers, row * columns, columns))?;
    }
    Ok(())
}

/// Numbers of two and more axes, by the axes but the last and the length of the last.
fn format_rows(
    alloc: Global,
    numbers: NumberSlice<'_>,
    outer: &[usize],
    columns: usize,
) -> Result<Array, Stop>
    requires full { length (values numbers) ≡ size_of (outer.now ++ columns ∷ []) }
    requires small { bound_of (outer.now ++ columns ∷ []) ≤ MAX_ELEMENTS }
    requires few_axes { length outer.now < MAX_RANK }
    ensures { Answers (λ a. a) (in_limits (rows_text outer.now columns (Numbers (values numbers.entry)))) result }
{
    let count = size(outer);
    let widths = number_widths(alloc, numbers, count, columns)?;
    let width = line_width(widths.as_slice())?;
    // Without rows there is nothing to make, and the limit is asked of the shape alone.
    if count * width > MAX_ELEMENTS {
        return Err(Stop::Fault(Fault::Limit));
    }
    let mut characters = Vec::with_capacity(alloc, count * width)?;
    push_rows(&mut characters, widths.as_slice(), numbers, count)?;
    in_shape(alloc, outer, width, characters)
}

/// Numbers as the characters of their display.
fn format_numbers(alloc: Global, shape: &[usize], numbers: NumberSlice<'_>) -> Result<Array, Stop>
    requires { IsArray shape.now (Numbers (values numbers)) }
    ensures { Answers (λ a. a) (in_limits (text_of shape.now (Numbers (values numbers.entry)))) result }
{
    let Some((columns, outer)) = shape.split_last() else {
        return format_line(alloc, numbers);
    };
    if outer.is_empty() {
        return format_line(alloc, numbers);
    }
    format_rows(alloc, numbers, outer, *columns)
}

/// An array as characters. Characters are left as they are. A scalar or a vector of numbers gives the vector of its line's characters.
/// Numbers of two and more axes give the rows of their display, where the last axis is as long as a row is wide and the other axes stay:
/// a column without elements has width 0. It is a limit fault exactly where that is more elements than an array may have, an axis of
/// length 0 counted as 1, and this is known before any of it is made.
pub fn format1(alloc: Global, array: &Array) -> Result<Array, Stop>
    ensures { Answers (λ a. a) (formatted array.now) result }
{
    match array.items() {
        Elements::Nums(numbers) => format_numbers(alloc, array.shape(), numbers),
        Elements::Chars(_) => Ok(array.copy()?),
    }
}
