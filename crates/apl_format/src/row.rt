// A line of an array.
ghost use Rattle.std.specs.Prelude.{◌≡◌, ◌+◌, ◌≤◌, ◌++◌, length, map, IfOk, OnOk};
ghost use Rattle.std.specs.Simd.Lanes.{zip2};
ghost use Rattle.apl_arrays.specs.Cells.{cells_of};
ghost use Rattle.apl_arrays.specs.Left.{listed};
ghost use Rattle.apl_arrays.specs.Numbers.{values};
ghost use Rattle.apl_format.specs.Display.{number_text, padded, joined, vector_line, row_line, first_of_ravel, dropped};
ghost use Rattle.apl_format.specs.inside.Parts.{HaveWidths};

use crate::number::{push_between, push_number, push_padded};
use crate::part::{part, row_at};
use apl_arrays::{Elements, NumberSlice};
use apl_charset::{Ch, Text};
use std::alloc::{AllocError, Global};

/// The most characters of a number.
const LONGEST: usize = 20;

/// Numbers with one blank between.
pub(crate) fn push_numbers(line: &mut Vec<Ch>, numbers: NumberSlice<'_>) -> Result<(), AllocError>
    ensures { OnOk result (line.new.items ≡ line.old.items ++ joined 32 (map number_text (values numbers.entry))) }
{
    for place in 0..numbers.len() {
        push_between(line, place)?;
        push_number(line, numbers.at(place))?;
    }
    Ok(())
}

/// Numbers, each right-aligned to its width, with one blank between.
pub(crate) fn push_aligned(
    line: &mut Vec<Ch>,
    widths: &[usize],
    numbers: NumberSlice<'_>,
) -> Result<(), AllocError>
    requires { length widths.now ≡ length (values numbers) }
    ensures { OnOk result (line.new.items ≡ line.old.items ++ joined 32 (zip2 padded widths.now (map number_text (values numbers.entry)))) }
{
    for place in 0..numbers.len() {
        push_between(line, place)?;
        push_padded(line, widths[place], numbers.at(place))?;
    }
    Ok(())
}

/// The line of a scalar or a vector.
#[tactic(auto, unfolding(crate::specs::Display::vector_line))]
pub(crate) fn vector_line(alloc: Global, items: Elements<'_>) -> Result<Text, AllocError>
    ensures { IfOk result (λ line. line ≡ vector_line (listed items.entry)) }
{
    match items {
        Elements::Nums(numbers) => {
            let mut line = Vec::with_capacity(alloc, numbers.len().max(LONGEST))?;
            push_numbers(&mut line, numbers)?;
            Ok(Text::new(line))
        }
        Elements::Chars(characters) => Ok(Text::new(Vec::from_slice(alloc, characters)?)),
    }
}

/// The line of the row that begins at a place of the elements.
#[tactic(auto, unfolding(crate::specs::Display::row_line))]
pub(crate) fn row_line(
    alloc: Global,
    items: Elements<'_>,
    widths: &[usize],
    columns: usize,
    place: usize,
) -> Result<Text, AllocError>
    requires within { place + columns ≤ length (cells_of (listed items)) }
    requires wide { HaveWidths columns (listed items) widths.now }
    ensures { IfOk result (λ line. line ≡ row_line widths.now (first_of_ravel columns (dropped place (listed items.entry)))) }
{
    match items {
        Elements::Nums(numbers) => {
            let room = widths
                .iter()
                .fold(columns, |room, width| room.saturating_add(*width));
            let mut line = Vec::with_capacity(alloc, room)?;
            push_aligned(&mut line, widths, row_at(numbers, place, columns))?;
            Ok(Text::new(line))
        }
        Elements::Chars(characters) => {
            let row = part(characters, place, columns);
            Ok(Text::new(Vec::from_slice(alloc, row)?))
        }
    }
}
