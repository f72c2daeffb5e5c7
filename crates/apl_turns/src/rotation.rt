// Lines of arrays turned round.
ghost use Rattle.std.specs.Prelude.{◌≡◌, ◌≢◌, ◌<◌, ◌≤◌, length, map, IfOk, IfSome, ◌+◌, slice_index_or};
ghost use Rattle.apl_arrays.specs.Answers.{Answers, FaultsFirst};
ghost use Rattle.apl_arrays.specs.Axes.{without};
ghost use Rattle.apl_arrays.specs.Cells.{cells_of};
ghost use Rattle.apl_arrays.specs.Checks.{same};
ghost use Rattle.apl_arrays.specs.Index.{size_of};
ghost use Rattle.apl_arrays.specs.Numbers.{values};
ghost use Rattle.apl_arrays.specs.Origins.{origin_number};
ghost use Rattle.apl_turns.specs.inside.Lines.{shift_of, turned_lines};
ghost use Rattle.apl_turns.specs.Turns.{fits_axis, fits_lines, rotated};

use crate::lines::{Turn, extent_along};
use apl_arrays::{Along, Array, MAX_ELEMENTS, NumberSlice, Origin, Stop, numbers_in};
use apl_faults::Fault;
use std::alloc::{AllocError, Global};

/// By how many elements a number turns a line of so many.
fn shift_of(number: i64, rows: usize) -> usize
    requires some { 0 < rows }
    requires small { rows ≤ MAX_ELEMENTS }
    ensures value { result ≡ shift_of rows number }
    ensures below { result < rows }
{
    number.rem_euclid(rows as i64) as usize
}

/// The same of each of these numbers.
fn shifts_of(alloc: Global, numbers: NumberSlice<'_>, rows: usize) -> Result<Vec<usize>, AllocError>
    requires some { 0 < rows }
    requires small { rows ≤ MAX_ELEMENTS }
    ensures { IfOk result (λ shifts. shifts.items ≡ map (shift_of rows) (values numbers.entry)) }
{
    let mut shifts = Vec::with_capacity(alloc, numbers.len())?;
    for k in 0..numbers.len() {
        shifts.push(shift_of(numbers.at(k), rows))?;
    }
    Ok(shifts)
}

/// An array, each line along an axis turned by its number. A single number serves for all lines.
fn turn_array(
    alloc: Global,
    b: &Array,
    numbers: NumberSlice<'_>,
    axis: usize,
) -> Result<Array, AllocError>
    requires within { axis < length b.now.shape }
    requires each { length (values numbers) ≢ 1 → length (values numbers) ≡ size_of (without axis b.now.shape) }
    ensures turned { IfOk result (λ turned. turned ≡ turned_lines axis (values numbers.entry) b.now) }
    ensures full { length (cells_of b.now.items) ≡ size_of b.now.shape }
{
    let items = b.items();
    if items.is_empty() {
        return b.copy();
    }
    let extent = extent_along(b.shape(), axis);
    let shifts = shifts_of(alloc, numbers, extent.rows)?;
    let turn = Turn {
        extent,
        shifts: shifts.as_slice(),
    };
    let turned = items.made_by(alloc, turn)?;
    b.with_ravel(alloc, turned)
}

/// The length of an axis beside one that is taken out.
fn other_length(shape: &[usize], axis: usize, other: usize) -> usize
    requires axis { axis < length shape.now }
    requires other { other + 1 < length shape.now }
    ensures { result ≡ slice_index_or (without axis shape.now) other 0 }
{
    if other < axis {
        shape[other]
    } else {
        shape[other + 1]
    }
}

/// Whether a shape is another one without an axis.
fn is_without(shape: &[usize], axis: usize, whole: &[usize]) -> bool
    requires axis { axis < length whole.now }
    requires rank { length shape.now + 1 ≡ length whole.now }
    ensures { result ≡ same shape.now (without axis whole.now) }
{
    for other in 0..shape.len() {
        if shape[other] != other_length(whole, axis, other) {
            return false;
        }
    }
    true
}

/// It is a fault where there is neither one number for all lines nor one for each.
fn fits_axis(shape: &[usize], axis: usize, whole: &[usize]) -> Result<(), Fault>
    requires { axis < length whole.now }
    ensures { result ≡ fits_axis shape.now axis whole.now }
{
    if shape.len() + 1 != whole.len() {
        return Err(Fault::Rank);
    }
    if is_without(shape, axis, whole) {
        Ok(())
    } else {
        Err(Fault::Length)
    }
}

/// It is a rank or a length fault where the elements of `a` can't turn the lines of `b` along an axis: neither one for all nor one for each.
fn fits_lines(a: &Array, b: &Array, axis: Option<usize>) -> Result<(), Fault>
    requires { IfSome axis (λ k. k < length b.now.shape) }
    ensures { result ≡ fits_lines a.now b.now axis }
{
    if a.items().len() == 1 {
        return Ok(());
    }
    match axis {
        Some(axis) => fits_axis(a.shape(), axis, b.shape()),
        None => Err(Fault::Rank),
    }
}

/// The lines of `b` along an axis turned round, each by its number of `a` or all by a single one: the element at an index is the one at this
/// index and the number together, modulo the length. A scalar, which one element of `a` turns, stays.
///
/// The faults are first those of [`Along::axis`], then a rank fault where `a` has neither one element nor one axis less than `b`, and a length
/// fault where its shape is not that of `b` without the axis. A character is a domain fault. Every fault is found before memory is asked for.
pub fn rotate(
    alloc: Global,
    along: Along<'_>,
    a: &Array,
    b: &Array,
    origin: Origin,
) -> Result<Array, Stop>
    ensures value { Answers (λ r. r) (rotated along.entry (origin_number origin) a.now b.now) result }
    ensures at_once { FaultsFirst (rotated along.entry (origin_number origin) a.now b.now) result }
{
    let axis = along.axis(b.rank(), origin)?;
    fits_lines(a, b, axis)?;
    let numbers = numbers_in(a.items())?;
    match axis {
        Some(axis) => Ok(turn_array(alloc, b, numbers, axis)?),
        None => Ok(b.copy()?),
    }
}
