// The widths of columns.
ghost use Rattle.std.specs.Prelude.{◌≡◌, ◌*◌, ◌≤◌, length, map, max, IfOk};
ghost use Rattle.std.specs.Simd.Lanes.{zip2};
ghost use Rattle.apl_arrays.specs.Cells.{Numbers, cells_of};
ghost use Rattle.apl_arrays.specs.Left.{listed};
ghost use Rattle.apl_arrays.specs.Numbers.{values};
ghost use Rattle.apl_format.specs.Display.{number_text, rows, widths};
ghost use Rattle.apl_format.specs.inside.Parts.{AreWidths, HaveWidths};

use crate::number::number_width;
use crate::part::row_at;
use apl_arrays::{Elements, NumberSlice};
use std::alloc::{AllocError, Global};

/// Makes each column as wide as its number.
fn widen(widths: &mut [usize], row: NumberSlice<'_>)
    requires { length widths.old ≡ length (values row) }
    ensures { widths.new ≡ zip2 max widths.old (map (λ z. length (number_text z)) (values row.entry)) }
{
    for column in 0..row.len() {
        widths[column] = widths[column].max(number_width(row.at(column)));
    }
}

/// The widths of the columns of so many rows of numbers.
pub(crate) fn number_widths(
    alloc: Global,
    numbers: NumberSlice<'_>,
    count: usize,
    columns: usize,
) -> Result<Vec<usize>, AllocError>
    requires { count * columns ≤ length (values numbers) }
    ensures value { IfOk result (λ made. made.items ≡ widths columns (rows count columns (Numbers (values numbers.entry)))) }
    ensures wide { IfOk result (λ made. length made.items ≡ columns) }
{
    let mut widths = vec![in alloc; 0usize; columns]?;
    for row in 0..count {
        widen(&mut widths, row_at(numbers, row * columns, columns));
    }
    Ok(widths)
}

/// The widths of the columns of so many rows of numbers. Characters have no need of any.
pub(crate) fn widths_of(
    alloc: Global,
    items: Elements<'_>,
    count: usize,
    columns: usize,
) -> Result<Vec<usize>, AllocError>
    requires { count * columns ≤ length (cells_of (listed items)) }
    ensures value { IfOk result (λ made. AreWidths count columns (listed items.entry) made.items) }
    ensures wide { IfOk result (λ made. HaveWidths columns (listed items.entry) made.items) }
{
    match items {
        Elements::Nums(numbers) => number_widths(alloc, numbers, count, columns),
        Elements::Chars(_) => Ok(Vec::new(alloc)),
    }
}
