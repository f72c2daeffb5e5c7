// Places along axes.
ghost use Rattle.std.specs.Prelude.{◌≡◌, ◌+◌, ◌-◌, ◌*◌, ◌^◌, ◌<◌, ◌≤◌, length, slice_set, if◌then◌else◌};
ghost use Rattle.apl_arrays.specs.Index.{bound_of, is_within, size_of};
ghost use Rattle.apl_arrays.specs.Nth.{index_at};
ghost use Rattle.apl_arrays.specs.Strides.{lengths, place_at, reach_of, step_at, whole_axes};

use crate::shape::{MAX_ELEMENTS, MAX_RANK, size};
use arrayvec::ArrayVec;

/// An axis of a view: its length, and how far apart in the ravel its elements are. The element at i is `up` × i further on than the place
/// that the other axes give, and `down` × (`length` - 1 - i) besides: `down` is 0 where the axis goes forward, and `up` where it goes
/// backward.
#[derive(Clone, Copy, Debug, Default, PartialEq, Eq)]
pub struct Axis {
    pub length: usize,
    pub up: usize,
    pub down: usize,
}

/// Where an index of an axis leads from a place.
#[inline(always)]
pub fn along(at: usize, axis: &Axis, index: usize) -> usize
    requires within { index < axis.now.length }
    requires near { at + (axis.now.up + axis.now.down) * axis.now.length < 2 ^ 63 }
    ensures { result ≡ at + step_at axis.now index }
{
    at + (axis.up * index + axis.down * (axis.length - 1 - index))
}

/// How far the element `from`, the first of `len`, lies further on than the first of the axis.
pub(crate) fn skip(axis: &Axis, from: usize, len: usize) -> usize
    requires within { from + len ≤ axis.now.length }
    requires near { (axis.now.up + axis.now.down) * axis.now.length < 2 ^ 62 }
    ensures { result ≡ axis.now.up * from + axis.now.down * (axis.now.length - from - len) }
{
    axis.up * from + axis.down * (axis.length - from - len)
}

/// The axes again.
pub fn copy_axes(axes: &[Axis]) -> ArrayVec<Axis, MAX_RANK>
    requires { length axes.now ≤ MAX_RANK }
    ensures { result.items ≡ axes.now }
{
    let mut copied = ArrayVec::new();
    for axis in axes {
        copied.push(*axis);
    }
    copied
}

/// The axes with another one in a place.
pub(crate) fn replaced(axes: &[Axis], place: usize, axis: Axis) -> ArrayVec<Axis, MAX_RANK>
    requires few { length axes.now ≤ MAX_RANK }
    requires within { place < length axes.now }
    ensures { result.items ≡ slice_set axes.now place axis }
{
    let mut copied = copy_axes(axes);
    copied.as_mut_slice()[place] = axis;
    copied
}

/// The axes of a whole array.
pub(crate) fn axes_of(shape: &[usize]) -> ArrayVec<Axis, MAX_RANK>
    requires few { length shape.now ≤ MAX_RANK }
    requires small { bound_of shape.now ≤ MAX_ELEMENTS }
    ensures { result.items ≡ whole_axes shape.now }
{
    let mut axes = ArrayVec::new();
    for k in 0..shape.len() {
        axes.push(Axis {
            length: shape[k],
            up: size(shape.split_at(k + 1).1),
            down: 0,
        });
    }
    axes
}

/// Where an index list stands, if it is within the shape.
pub(crate) fn place_in(offset: usize, axes: &[Axis], index: &[usize]) -> Option<usize>
    requires { reach_of offset axes.now < 2 ^ 62 }
    ensures { result ≡ (if is_within (lengths axes.now) index.now then Some (place_at offset axes.now index.now) else None) }
{
    if index.len() != axes.len() {
        return None;
    }
    let mut place = offset;
    for k in 0..index.len() {
        if index[k] >= axes[k].length {
            return None;
        }
        place = along(place, &axes[k], index[k]);
    }
    Some(place)
}

/// The lengths of the axes.
pub(crate) fn lengths_of(axes: &[Axis]) -> ArrayVec<usize, MAX_RANK>
    requires { length axes.now ≤ MAX_RANK }
    ensures { result.items ≡ lengths axes.now }
{
    let mut shape = ArrayVec::new();
    for axis in axes {
        shape.push(axis.length);
    }
    shape
}

/// Where the index list stands that comes after so many others. They are `count` in all.
pub(crate) fn nth_place(offset: usize, axes: &[Axis], count: usize, nth: usize) -> usize
    requires whole { count ≡ size_of (lengths axes.now) }
    requires within { nth < count }
    requires near { reach_of offset axes.now < 2 ^ 62 }
    ensures { result ≡ place_at offset axes.now (index_at (lengths axes.now) nth) }
{
    let mut place = offset;
    let mut rest = nth;
    let mut size = count;
    for axis in axes {
        size /= axis.length;
        place = along(place, axis, rest / size);
        rest %= size;
    }
    place
}
