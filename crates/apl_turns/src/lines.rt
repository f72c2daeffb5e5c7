// Lines along an axis, each turned round in a ravel.
ghost use Rattle.std.specs.Prelude.{◌≡◌, ◌≢◌, ◌+◌, ◌*◌, ◌%◌, ◌<◌, ◌≤◌, ◌++◌};
ghost use Rattle.std.specs.Prelude.{ℕ, length, take, drop, slice_index_or, IfOk, OnOk};
ghost use Rattle.apl_arrays.specs.Index.{bound_of, size_of};
ghost use Rattle.apl_turns.specs.inside.Lines.{shift_at, sourced_list, turned_plane, turned_row};

use apl_arrays::{MAX_ELEMENTS, Structural, size};
use std::alloc::{AllocError, Global};

/// How the elements of an array lie along an axis: planes one after another, in each as many rows as the axis is long, and in each row an
/// element of each of the plane's lines.
#[derive(Clone, Copy)]
pub(crate) struct Extent {
    pub(crate) planes: usize,
    pub(crate) rows: usize,
    pub(crate) width: usize,
}

/// How the elements of an array of this shape lie along an axis.
pub(crate) fn extent_along(shape: &[usize], axis: usize) -> Extent
    requires within { axis < length shape.now }
    requires small { bound_of shape.now ≤ MAX_ELEMENTS }
    ensures planes { result.planes ≡ size_of (take axis shape.now) }
    ensures rows { result.rows ≡ slice_index_or shape.now axis 0 }
    ensures width { result.width ≡ size_of (drop (axis + 1) shape.now) }
{
    Extent {
        planes: size(shape.split_at(axis).0),
        rows: shape[axis],
        width: size(shape.split_at(axis + 1).1),
    }
}

/// A number below twice a count, less the count where it is not below it.
#[inline(always)]
fn wrapped(number: usize, count: usize) -> usize
    requires { number < count + count }
    ensures { result ≡ number % count }
{
    if number < count {
        number
    } else {
        number - count
    }
}

/// The piece of a slice that comes after so many others, of so many elements each.
pub(crate) fn piece<T>(items: &[T], number: usize, size: usize) -> &[T]
    requires { number * size + size ≤ length items.now }
    ensures { result.now ≡ take size (drop (number * size) items.now) }
{
    items.split_at(number * size).1.split_at(size).0
}

/// By how many elements a line is turned.
fn shift_of_line(shifts: &[usize], line: usize) -> usize
    requires { length shifts.now ≢ 1 → line < length shifts.now }
    ensures { result ≡ shift_at shifts.now line }
{
    if shifts.len() == 1 {
        shifts[0]
    } else {
        shifts[line]
    }
}

/// Appends a plane from an element on, and then the elements before.
fn push_turned<T: Copy>(out: &mut Vec<T>, plane: &[T], from: usize) -> Result<(), AllocError>
    requires { from ≤ length plane.now }
    ensures { OnOk result (out.new.items ≡ out.old.items ++ (drop from plane.now ++ take from plane.now)) }
{
    let (prefix, back) = plane.split_at(from);
    out.extend_from_slice(back)?;
    out.extend_from_slice(prefix)?;
    Ok(())
}

/// The elements of a ravel, where the lines of each plane are turned as one: two blocks for each plane.
fn turn_planes<T: Copy>(
    alloc: Global,
    raw: &[T],
    extent: Extent,
    shifts: &[usize],
) -> Result<Vec<T>, AllocError>
    requires whole { length raw.now ≡ extent.planes * (extent.rows * extent.width) }
    requires some { 0 < length raw.now }
    requires known { length shifts.now ≢ 1 → length shifts.now ≡ extent.planes }
    requires below { (line : ℕ) → shift_at shifts.now line < extent.rows }
    requires as_one { (plane line : ℕ) → line < extent.width → shift_at shifts.now (plane * extent.width + line) ≡ shift_at shifts.now plane }
    ensures { IfOk result (λ v. (d : T) → v.items ≡ sourced_list extent.rows extent.width shifts.now raw.now d) }
{
    let mut out = Vec::with_capacity(alloc, raw.len())?;
    let size = extent.rows * extent.width;
    for plane in 0..extent.planes {
        let from = shift_of_line(shifts, plane) * extent.width;
        push_turned(&mut out, piece(raw, plane, size), from)?;
    }
    Ok(out)
}

/// Appends a row of a plane: in each line the element that its turn brings there.
fn push_row<T: Copy>(
    out: &mut Vec<T>,
    plane: &[T],
    shifts: &[usize],
    rows: usize,
    row: usize,
) -> Result<(), AllocError>
    requires whole { length plane.now ≡ rows * length shifts.now }
    requires small { length plane.now ≤ MAX_ELEMENTS }
    requires below { (line : ℕ) → line < length shifts.now → slice_index_or shifts.now line 0 < rows }
    requires within { row < rows }
    ensures { OnOk result ((d : T) → out.new.items ≡ out.old.items ++ turned_row plane.now shifts.now rows row d) }
{
    let width = shifts.len();
    for line in 0..width {
        let from = wrapped(row + shifts[line], rows);
        out.push(plane[from * width + line])?;
    }
    Ok(())
}

/// Appends a plane, each line of it turned by its own number.
fn push_plane<T: Copy>(
    out: &mut Vec<T>,
    plane: &[T],
    shifts: &[usize],
    rows: usize,
) -> Result<(), AllocError>
    requires whole { length plane.now ≡ rows * length shifts.now }
    requires small { length plane.now ≤ MAX_ELEMENTS }
    requires below { (line : ℕ) → line < length shifts.now → slice_index_or shifts.now line 0 < rows }
    ensures { OnOk result ((d : T) → out.new.items ≡ out.old.items ++ turned_plane plane.now shifts.now rows d) }
{
    for row in 0..rows {
        push_row(out, plane, shifts, rows, row)?;
    }
    Ok(())
}

/// The elements of a ravel, each line turned by its own number, row by row.
fn turn_lines<T: Copy>(
    alloc: Global,
    raw: &[T],
    extent: Extent,
    shifts: &[usize],
) -> Result<Vec<T>, AllocError>
    requires whole { length raw.now ≡ extent.planes * (extent.rows * extent.width) }
    requires some { 0 < length raw.now }
    requires small { length raw.now ≤ MAX_ELEMENTS }
    requires each { length shifts.now ≡ extent.planes * extent.width }
    requires below { (line : ℕ) → shift_at shifts.now line < extent.rows }
    ensures { IfOk result (λ v. (d : T) → v.items ≡ sourced_list extent.rows extent.width shifts.now raw.now d) }
{
    let mut out = Vec::with_capacity(alloc, raw.len())?;
    let size = extent.rows * extent.width;
    for plane in 0..extent.planes {
        push_plane(
            &mut out,
            piece(raw, plane, size),
            piece(shifts, plane, extent.width),
            extent.rows,
        )?;
    }
    Ok(out)
}

/// Each line of a ravel turned by its number. A single number serves for all lines.
#[derive(Clone, Copy)]
pub(crate) struct Turn<'s> {
    pub(crate) extent: Extent,
    pub(crate) shifts: &'s [usize],
}

impl<'s> Structural for Turn<'s> {
    ghost use Rattle.apl_turns.specs.inside.Lines.{sourced_list, IsTurn};

    ghost takes = { IsTurn };

    ghost makes = { λ A t d fill xs. sourced_list t.extent.rows t.extent.width t.shifts.now xs d };

    fn make<T: Copy>(self, alloc: Global, items: &[T], _fill: T) -> Result<Vec<T>, AllocError> {
        if self.shifts.len() == 1 {
            return turn_planes(alloc, items, self.extent, self.shifts);
        }
        if self.extent.width == 1 {
            return turn_planes(alloc, items, self.extent, self.shifts);
        }
        turn_lines(alloc, items, self.extent, self.shifts)
    }
}
