// Lengths of axes, made of those of an operand and of counts.
ghost use Rattle.std.specs.Prelude.{◌≡◌, ◌<◌, ◌≤◌, length, pos, replicate, slice_index_or};
ghost use Rattle.apl_reshape.specs.inside.Asked.{asked_of, has_enough};
ghost use Rattle.apl_reshape.specs.Take.{each_axis, with_axes};

use apl_arrays::MAX_RANK;
use arrayvec::ArrayVec;

/// So many axes of length 1.
pub(crate) fn ones(count: usize) -> ArrayVec<usize, MAX_RANK>
    requires { count ≤ MAX_RANK }
    ensures { result.items ≡ replicate count 1 }
{
    let mut lengths = ArrayVec::new();
    for _ in 0..count {
        lengths.push(1);
    }
    lengths
}

/// The lengths again.
pub(crate) fn same_lengths(shape: &[usize]) -> ArrayVec<usize, MAX_RANK>
    requires { length shape.now ≤ MAX_RANK }
    ensures { result.items ≡ shape.now }
{
    let mut lengths = ArrayVec::new();
    for length in shape {
        lengths.push(*length);
    }
    lengths
}

/// The lengths with which an operand takes part: a scalar gets so many axes of length 1.
pub(crate) fn axes_of(count: usize, shape: &[usize]) -> ArrayVec<usize, MAX_RANK>
    requires count { count ≤ MAX_RANK }
    requires few { length shape.now ≤ MAX_RANK }
    ensures { result.items ≡ with_axes count shape.now }
{
    if shape.is_empty() {
        ones(count)
    } else {
        same_lengths(shape)
    }
}

/// What is asked of an axis, by its length and a count.
#[derive(Clone, Copy)]
pub(crate) enum Asked {
    /// How many are left without so many.
    Left,
    /// How many of those that are dropped stand before what is left.
    StartLeft,
    /// How many stand before those that are taken.
    StartTaken,
}

/// What is asked of an axis.
fn asked_at(asked: Asked, shape: &[usize], counts: &[i64], axis: usize) -> usize
    requires shape { axis < length shape.now }
    requires counts { axis < length counts.now }
    ensures { result ≡ asked_of asked (slice_index_or shape.now axis 0) (slice_index_or counts.now axis (pos 0)) }
{
    let length = shape[axis];
    let magnitude = counts[axis].unsigned_abs() as usize;
    match (asked, counts[axis] < 0) {
        (Asked::Left, _) | (Asked::StartTaken, true) => length.saturating_sub(magnitude),
        (Asked::StartLeft, false) => magnitude.min(length),
        (Asked::StartLeft, true) | (Asked::StartTaken, false) => 0,
    }
}

/// What is asked of each axis.
pub(crate) fn asked_of_each(
    asked: Asked,
    shape: &[usize],
    counts: &[i64],
) -> ArrayVec<usize, MAX_RANK>
    requires axes { length shape.now ≡ length counts.now }
    requires few { length shape.now ≤ MAX_RANK }
    ensures { result.items ≡ each_axis (asked_of asked) shape.now counts.now }
{
    let mut numbers = ArrayVec::new();
    for axis in 0..shape.len() {
        numbers.push(asked_at(asked, shape, counts, axis));
    }
    numbers
}

/// Whether an array of this shape has so many elements along each axis.
pub(crate) fn has_enough(shape: &[usize], lengths: &[usize]) -> bool
    ensures { result ≡ has_enough shape.now lengths.now }
{
    if shape.len() != lengths.len() {
        return false;
    }
    for axis in 0..shape.len() {
        if shape[axis] < lengths[axis] {
            return false;
        }
    }
    true
}
