// Places in a ravel that slots lead to, and the elements there.
ghost use Rattle.std.specs.Prelude.{◌≡◌, ◌+◌, ◌*◌, ◌<◌, ◌≤◌, [], ◌∷◌, ◌++◌};
ghost use Rattle.std.specs.Prelude.{drop, length, map, slice_index_or, IfOk, OnOk};
ghost use Rattle.std.specs.List.{All};
ghost use Rattle.apl_arrays.specs.Cells.{cells_of};
ghost use Rattle.apl_arrays.specs.Index.{bound_of, size_of};
ghost use Rattle.apl_arrays.specs.Left.{listed};
ghost use Rattle.apl_arrays.specs.Ravels.{items_of};
ghost use Rattle.apl_select.specs.Indexing.{items_led_to, joined_shape};
ghost use Rattle.apl_select.specs.inside.Reached.{crossed, led, reached, AreOnAxes};

use crate::slots::Picked;
use apl_arrays::{Elements, MAX_ELEMENTS, MAX_RANK, Ravel, Structural};
use std::alloc::{AllocError, Global};

/// Appends the places of an axis, counted from one on.
fn cross_row(first: usize, places: &[usize], out: &mut Vec<usize>) -> Result<(), AllocError>
    requires first { first ≤ MAX_ELEMENTS }
    requires places { All (λ k. k < MAX_ELEMENTS) places.now }
    ensures { OnOk result (out.new.items ≡ out.old.items ++ map (λ k. first + k) places.now) }
{
    for place in places {
        out.push(first + *place)?;
    }
    Ok(())
}

/// From each start so many rows of an axis on, its places.
fn cross(
    alloc: Global,
    starts: &[usize],
    len: usize,
    places: &[usize],
) -> Result<Vec<usize>, AllocError>
    requires near { All (λ s. s * len ≤ MAX_ELEMENTS) starts.now }
    requires places { All (λ k. k < MAX_ELEMENTS) places.now }
    requires room { length starts.now * length places.now ≤ MAX_ELEMENTS }
    ensures { IfOk result (λ v. v.items ≡ crossed starts.now len places.now) }
{
    let mut out = Vec::with_capacity(alloc, starts.len() * places.len())?;
    for start in starts {
        cross_row(*start * len, places, &mut out)?;
    }
    Ok(out)
}

/// The places that are reached along the first so many axes.
fn starts_of(
    alloc: Global,
    shape: &[usize],
    picks: &[Picked],
    axes: usize,
) -> Result<Vec<usize>, AllocError>
    requires on_axes { AreOnAxes shape.now picks.now }
    requires small { bound_of shape.now ≤ MAX_ELEMENTS }
    requires room { bound_of (joined_shape picks.now) ≤ MAX_ELEMENTS }
    requires axes { axes ≤ length shape.now }
    requires few { length shape.now ≤ MAX_RANK }
    ensures way { IfOk result (λ v. reached v.items (drop axes shape.now) (drop axes picks.now) ≡ reached (0 ∷ []) shape.now picks.now) }
    ensures near { IfOk result (λ v. All (λ s. (s + 1) * bound_of (drop axes shape.now) ≤ MAX_ELEMENTS) v.items) }
{
    let mut starts = Vec::with_capacity(alloc, 1)?;
    starts.push(0)?;
    for k in 0..axes {
        let crossed = cross(alloc, starts.as_slice(), shape[k], picks[k].places())?;
        starts = crossed;
    }
    Ok(starts)
}

/// The places that are reached along all axes, in the order of the index lists that lead there.
pub(crate) fn places_led(
    alloc: Global,
    shape: &[usize],
    picks: &[Picked],
) -> Result<Vec<usize>, AllocError>
    requires on_axes { AreOnAxes shape.now picks.now }
    requires small { bound_of shape.now ≤ MAX_ELEMENTS }
    requires room { bound_of (joined_shape picks.now) ≤ MAX_ELEMENTS }
    requires few { length shape.now ≤ MAX_RANK }
    ensures { IfOk result (λ places. places.items ≡ led shape.now picks.now) }
{
    starts_of(alloc, shape, picks, shape.len())
}

/// Appends the elements at the places of an axis, counted from one on.
fn gather_line<T: Copy>(
    raw: &[T],
    first: usize,
    places: &[usize],
    out: &mut Vec<T>,
) -> Result<(), AllocError>
    requires within { All (λ q. q < length raw.now) (map (λ k. first + k) places.now) }
    requires small { length raw.now ≤ MAX_ELEMENTS }
    ensures { OnOk result ((d : T) → out.new.items ≡ out.old.items ++ map (λ k. slice_index_or raw.now (first + k) d) places.now) }
{
    for place in places {
        out.push(raw[first + *place])?;
    }
    Ok(())
}

/// The elements at the places of the last axis, counted from each start so many rows of it on, and the room for them.
#[derive(Clone, Copy)]
struct Reading<'p> {
    starts: &'p [usize],
    len: usize,
    places: &'p [usize],
    room: usize,
}

impl<'p> Structural for Reading<'p> {
    ghost use Rattle.std.specs.Prelude.{map, slice_index_or};
    ghost use Rattle.apl_select.specs.inside.Reached.{crossed, IsRead};

    ghost takes = { IsRead };

    ghost makes = { λ A r d fill xs. map (λ q. slice_index_or xs q d) (crossed r.starts.now r.len r.places.now) };

    fn make<T: Copy>(self, alloc: Global, items: &[T], _fill: T) -> Result<Vec<T>, AllocError> {
        let mut out = Vec::with_capacity(alloc, self.room)?;
        for start in self.starts {
            gather_line(items, *start * self.len, self.places, &mut out)?;
        }
        Ok(out)
    }
}

/// The elements at all places that are reached, with room for so many. The last axis has a loop of its own.
pub(crate) fn read(
    alloc: Global,
    room: usize,
    items: Elements<'_>,
    shape: &[usize],
    picks: &[Picked],
) -> Result<Ravel, AllocError>
    requires full { length (cells_of (listed items)) ≡ size_of shape.now }
    requires on_axes { AreOnAxes shape.now picks.now }
    requires small { bound_of shape.now ≤ MAX_ELEMENTS }
    requires few { length shape.now ≤ MAX_RANK }
    requires room { bound_of (joined_shape picks.now) ≤ MAX_ELEMENTS }
    ensures { IfOk result (λ r. items_of r ≡ items_led_to (listed items.entry) shape.now picks.now) }
{
    if shape.is_empty() {
        return items.to_ravel(alloc);
    }
    let last = shape.len() - 1;
    let starts = starts_of(alloc, shape, picks, last)?;
    let reading = Reading {
        starts: starts.as_slice(),
        len: shape[last],
        places: picks[last].places(),
        room,
    };
    items.made_by(alloc, reading)
}
