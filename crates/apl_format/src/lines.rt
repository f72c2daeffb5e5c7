// The lines of an array.
ghost use Rattle.std.specs.Prelude.{◌≡◌, ◌+◌, ◌*◌, ◌≤◌, ◌<◌, ◌++◌, [], ◌∷◌, length, map, IfOk, OnOk};
ghost use Rattle.apl_arrays.specs.Cells.{cells_of};
ghost use Rattle.apl_arrays.specs.Index.{size_of, bound_of};
ghost use Rattle.apl_arrays.specs.Left.{listed};
ghost use Rattle.apl_format.specs.Display.{display, matrix_lines, vector_line, row_line, rows, planes, joined, dropped};
ghost use Rattle.apl_format.specs.inside.Parts.{before, HaveWidths};

use crate::columns::widths_of;
use crate::row::{row_line, vector_line};
use apl_arrays::{Array, Elements, MAX_ELEMENTS, size};
use apl_charset::Text;
use std::alloc::{AllocError, Global};

/// Adds the empty line before the plane at a place, unless it is the first.
fn push_gap(alloc: Global, lines: &mut Vec<Text>, place: usize) -> Result<(), AllocError>
    ensures { OnOk result (lines.new.items ≡ lines.old.items ++ before [] place) }
{
    if place == 0 {
        return Ok(());
    }
    lines.push(Text::new(Vec::new(alloc)))?;
    Ok(())
}

/// Adds the rows of the plane that begins at a place of the elements.
fn push_plane(
    alloc: Global,
    lines: &mut Vec<Text>,
    items: Elements<'_>,
    widths: &[usize],
    height: usize,
    columns: usize,
    place: usize,
) -> Result<(), AllocError>
    requires within { place + height * columns ≤ length (cells_of (listed items)) }
    requires wide { HaveWidths columns (listed items) widths.now }
    ensures { OnOk result (lines.new.items ≡ lines.old.items ++ map (row_line widths.now) (rows height columns (dropped place (listed items.entry)))) }
{
    let mut from = place;
    for _ in 0..height {
        lines.push(row_line(alloc, items, widths, columns, from)?)?;
        from += columns;
    }
    Ok(())
}

/// The lines of planes of rows.
fn plane_lines(
    alloc: Global,
    items: Elements<'_>,
    widths: &[usize],
    count: usize,
    height: usize,
    columns: usize,
) -> Result<Vec<Text>, AllocError>
    requires within { count * (height * columns) ≤ length (cells_of (listed items)) }
    requires few { (count * height ≤ MAX_ELEMENTS) × (height * columns ≤ MAX_ELEMENTS) × (count ≤ MAX_ELEMENTS) }
    requires small { length (cells_of (listed items)) ≤ MAX_ELEMENTS }
    requires wide { HaveWidths columns (listed items) widths.now }
    ensures { IfOk result (λ lines. lines.items ≡ joined [] (map (map (row_line widths.now)) (planes count height columns (listed items.entry)))) }
{
    let mut lines = Vec::with_capacity(alloc, count * height + count)?;
    let mut place = 0usize;
    for plane in 0..count {
        push_gap(alloc, &mut lines, plane)?;
        push_plane(alloc, &mut lines, items, widths, height, columns, place)?;
        place += height * columns;
    }
    Ok(lines)
}

/// The line of a scalar or a vector.
fn one_line(alloc: Global, items: Elements<'_>) -> Result<Vec<Text>, AllocError>
    ensures { IfOk result (λ lines. lines.items ≡ vector_line (listed items.entry) ∷ []) }
{
    let mut lines = Vec::with_capacity(alloc, 1)?;
    lines.push(vector_line(alloc, items)?)?;
    Ok(lines)
}

/// The lines of an array of two and more axes.
fn matrix_lines(
    alloc: Global,
    items: Elements<'_>,
    outer: &[usize],
    height: usize,
    columns: usize,
) -> Result<Vec<Text>, AllocError>
    requires full { length (cells_of (listed items)) ≡ size_of (outer.now ++ height ∷ columns ∷ []) }
    requires small { bound_of (outer.now ++ height ∷ columns ∷ []) ≤ MAX_ELEMENTS }
    ensures { IfOk result (λ lines. lines.items ≡ matrix_lines (size_of outer.now) height columns (listed items.entry)) }
{
    if height == 0 {
        return Ok(Vec::new(alloc));
    }
    let count = size(outer);
    let widths = widths_of(alloc, items, count * height, columns)?;
    let lines = plane_lines(alloc, items, widths.as_slice(), count, height, columns)?;
    Ok(lines)
}

/// The lines that show an array. A number is its digits, with a high minus before a negative one.
/// A scalar or a vector is one line, numbers with one blank between, characters without. At two and more
/// axes each row is a line: a column of numbers is right-aligned to its widest item over the whole array,
/// and one empty line stands between any two planes. Where there are no rows there are no lines.
/// It fails only out of memory.
pub fn display(alloc: Global, array: &Array) -> Result<Vec<Text>, AllocError>
    ensures { IfOk result (λ lines. lines.items ≡ display array.now) }
{
    let items = array.items();
    let Some((columns, axes)) = array.shape().split_last() else {
        return one_line(alloc, items);
    };
    let Some((height, outer)) = axes.split_last() else {
        return one_line(alloc, items);
    };
    matrix_lines(alloc, items, outer, *height, *columns)
}
