// Elements read by steps, in the order of their index lists.
ghost use Rattle.std.specs.Prelude.{◌≡◌, ℕ, ◌+◌, ◌*◌, ◌<◌, ◌≤◌, ◌^◌, ◌∷◌, ◌++◌, length, replicate, IfOk, IsTrue, OnOk};
ghost use Rattle.std.specs.List.{range_with_len};
ghost use Rattle.apl_arrays.specs.Index.{indices};
ghost use Rattle.apl_arrays.specs.Cells.{cells_of};
ghost use Rattle.apl_arrays.specs.Left.{listed};
ghost use Rattle.apl_arrays.specs.Ravels.{items_of};
ghost use Rattle.apl_arrays.specs.Strides.{lengths, place_at, reach_of, seen, step_at, AllPlaced};
ghost use Rattle.apl_arrays.specs.Views.{all_at};
ghost use Rattle.apl_arrays.specs.inside.Rows.{four_from, line_from, AreRowsTo};

use crate::axis::{Axis, along};
use crate::cell::Ravel;
use crate::elements::Elements;
use crate::structural::Structural;
use std::alloc::{AllocError, Global};

/// Reads elements by steps, in the order of their index lists, with room for so many.
#[derive(Clone, Copy)]
struct Steps<'a> {
    room: usize,
    at: usize,
    axes: &'a [Axis],
}

impl<'a> Structural for Steps<'a> {
    ghost takes = { λ s n. AllPlaced n s.at s.axes.now × (reach_of s.at s.axes.now < 2 ^ 63) };

    ghost makes = { λ A s d fill xs. all_at xs (place_at s.at s.axes.now) (indices (lengths s.axes.now)) d };

    fn make<T: Copy>(self, alloc: Global, items: &[T], _fill: T) -> Result<Vec<T>, AllocError> {
        let mut out = Vec::with_capacity(alloc, self.room)?;
        gather(items, self.at, self.axes, &mut out)?;
        Ok(out)
    }
}

/// The elements at all index lists, with room for so many.
pub(crate) fn gathered(
    alloc: Global,
    room: usize,
    items: Elements<'_>,
    at: usize,
    axes: &[Axis],
) -> Result<Ravel, AllocError>
    requires placed { AllPlaced (length (cells_of (listed items))) at axes.now }
    requires near { reach_of at axes.now < 2 ^ 63 }
    ensures { IfOk result (λ r. items_of r ≡ seen (listed items.entry) at axes.now) }
{
    items.made_by(alloc, Steps { room, at, axes })
}

/// Appends the elements at all index lists. The last axis has a loop of its own.
fn gather<T: Copy>(raw: &[T], at: usize, axes: &[Axis], out: &mut Vec<T>) -> Result<(), AllocError>
    requires placed { AllPlaced (length raw.now) at axes.now }
    requires near { reach_of at axes.now < 2 ^ 63 }
    ensures { OnOk result ((d : T) → out.new.items ≡ out.old.items ++ all_at raw.now (place_at at axes.now) (indices (lengths axes.now)) d) }
{
    match axes {
        [] => {
            out.push(raw[at])?;
            Ok(())
        }
        [axis] => {
            gather_line(raw, at, axis, out)?;
            Ok(())
        }
        [axis, rest @ ..] => {
            let begun = gather_fours(raw, at, axis, rest, out)?;
            for i in begun..axis.length {
                gather(raw, along(at, axis, i), rest, out)?;
            }
            Ok(())
        }
    }
}

/// Appends rows four by four, and gives how many. They are lines of which each lies a place further on than the one before, as those of a
/// table turned over, so that what is read at once serves four of them. Of other rows it appends none.
fn gather_fours<T: Copy>(
    raw: &[T],
    at: usize,
    axis: &Axis,
    rest: &[Axis],
    out: &mut Vec<T>,
) -> Result<usize, AllocError>
    requires placed { AllPlaced (length raw.now) at (axis.now ∷ rest.now) }
    requires near { reach_of at (axis.now ∷ rest.now) < 2 ^ 63 }
    ensures within { IfOk result (λ n. n ≤ axis.now.length) }
    ensures rows { IfOk result (λ n. AreRowsTo raw.now at axis.now rest.now n out.old.items out.new.items) }
{
    let [line] = rest else {
        return Ok(0);
    };
    if !are_side_by_side(axis) {
        return Ok(0);
    }
    if line.length == 0 {
        return Ok(0);
    }
    let mut row = 0usize;
    while 4 <= axis.length - row {
        push_four(raw, at + row, line, out)?;
        row += 4;
    }
    Ok(row)
}

/// Appends four lines along an axis, of which each begins a place further on than the one before.
fn push_four<T: Copy>(raw: &[T], at: usize, axis: &Axis, out: &mut Vec<T>) -> Result<(), AllocError>
    requires some { 0 < axis.now.length }
    requires placed { (k : ℕ) → k < axis.now.length → at + 3 + step_at axis.now k < length raw.now }
    requires near { at + (axis.now.up + axis.now.down) * axis.now.length < 2 ^ 63 }
    ensures { OnOk result ((d : T) → out.new.items ≡ out.old.items ++ four_from raw.now axis.now at d) }
{
    let Some(count) = axis.length.checked_mul(4) else {
        return Err(AllocError);
    };
    let before = grow(out, count, raw[along(at, axis, 0)])?;
    let lines = out.as_mut_slice().split_at_mut(before).1;
    let (first, rest) = lines.split_at_mut(axis.length);
    let (second, rest) = rest.split_at_mut(axis.length);
    let (third, fourth) = rest.split_at_mut(axis.length);
    write_four(first, second, third, fourth, raw, at, *axis);
    Ok(())
}

/// Appends so many of an element, which are to be written over, and gives where they begin.
fn grow<T: Copy>(out: &mut Vec<T>, count: usize, element: T) -> Result<usize, AllocError>
    ensures place { IfOk result (λ before. before ≡ length out.old.items) }
    ensures grown { OnOk result (out.new.items ≡ out.old.items ++ replicate count element) }
{
    let before = out.len();
    let Some(all) = before.checked_add(count) else {
        return Err(AllocError);
    };
    out.resize(all, element)?;
    Ok(before)
}

/// Writes the elements along an axis to four lines, to each from a place further on than to the one before.
fn write_four<T: Copy>(
    first: &mut [T],
    second: &mut [T],
    third: &mut [T],
    fourth: &mut [T],
    raw: &[T],
    at: usize,
    axis: Axis,
)
    requires first { length first.old ≡ axis.length }
    requires second { length second.old ≡ axis.length }
    requires third { length third.old ≡ axis.length }
    requires fourth { length fourth.old ≡ axis.length }
    requires placed { (k : ℕ) → k < axis.length → at + 3 + step_at axis k < length raw.now }
    requires near { at + (axis.up + axis.down) * axis.length < 2 ^ 63 }
    ensures first { (d : T) → first.new ≡ line_from raw.now axis at d }
    ensures second { (d : T) → second.new ≡ line_from raw.now axis (at + 1) d }
    ensures third { (d : T) → third.new ≡ line_from raw.now axis (at + 2) d }
    ensures fourth { (d : T) → fourth.new ≡ line_from raw.now axis (at + 3) d }
{
    for k in 0..axis.length {
        let place = along(at, &axis, k);
        first[k] = raw[place];
        second[k] = raw[place + 1];
        third[k] = raw[place + 2];
        fourth[k] = raw[place + 3];
    }
}

/// Whether the elements along an axis lie side by side.
fn are_side_by_side(axis: &Axis) -> bool
    ensures { IsTrue result → (axis.now.up ≡ 1) × (axis.now.down ≡ 0) }
{
    axis.up == 1 && axis.down == 0
}

/// Appends the elements along an axis, those that lie side by side in one copy.
fn gather_line<T: Copy>(
    raw: &[T],
    at: usize,
    axis: &Axis,
    out: &mut Vec<T>,
) -> Result<(), AllocError>
    requires placed { (k : ℕ) → k < axis.now.length → at + step_at axis.now k < length raw.now }
    requires near { at + (axis.now.up + axis.now.down) * axis.now.length < 2 ^ 63 }
    ensures { OnOk result ((d : T) → out.new.items ≡ out.old.items ++ all_at raw.now (λ k. at + step_at axis.now k) (range_with_len 0 axis.now.length) d) }
{
    if axis.length > 0 && axis.up == 1 && axis.down == 0 {
        out.extend_from_slice(raw.split_at(at).1.split_at(axis.length).0)?;
        return Ok(());
    }
    for i in 0..axis.length {
        out.push(raw[along(at, axis, i)])?;
    }
    Ok(())
}
