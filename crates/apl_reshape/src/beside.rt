// The lengths with which two operands are joined.
ghost use Rattle.std.specs.Prelude.{◌≡◌, ◌<◌, ◌≤◌, length, max, slice_set};
ghost use Rattle.apl_arrays.specs.Axes.{without};
ghost use Rattle.apl_arrays.specs.Checks.{same};
ghost use Rattle.apl_arrays.specs.Views.{on_axis};
ghost use Rattle.apl_reshape.specs.Catenate.{beside};

use crate::lengths::{ones, same_lengths};
use apl_arrays::MAX_RANK;
use arrayvec::ArrayVec;

/// The lengths after a write.
fn written(shape: &[usize], axis: usize, len: usize) -> ArrayVec<usize, MAX_RANK>
    requires few { length shape.now ≤ MAX_RANK }
    requires within { axis < length shape.now }
    ensures { result.items ≡ slice_set shape.now axis len }
{
    let mut lengths = same_lengths(shape);
    lengths.as_mut_slice()[axis] = len;
    lengths
}

/// The lengths with another one at an axis.
#[tactic(auto, using(crate::proofs::Joins::set_on_axis))]
pub(crate) fn replaced(shape: &[usize], axis: usize, len: usize) -> ArrayVec<usize, MAX_RANK>
    requires few { length shape.now ≤ MAX_RANK }
    requires within { axis < length shape.now }
    ensures { result.items ≡ on_axis axis (λ n. len) shape.now }
{
    written(shape, axis, len)
}

/// The lengths of an operand beside another. A scalar extends over the other axes, and a rank lower by 1 gets the axis, each as length 1.
#[tactic(auto, using(crate::proofs::Joins::insert_axis))]
pub(crate) fn lengths_beside(
    axis: usize,
    own: &[usize],
    other: &[usize],
) -> ArrayVec<usize, MAX_RANK>
    requires own { length own.now ≤ MAX_RANK }
    requires other { length other.now ≤ MAX_RANK }
    requires within { axis < max (max (length own.now) (length other.now)) 1 }
    ensures { result.items ≡ beside axis own.now other.now }
{
    if own.is_empty() {
        if other.is_empty() {
            return ones(1);
        }
        return replaced(other, axis, 1);
    }
    let mut lengths = same_lengths(own);
    if own.len() + 1 == other.len() {
        lengths.insert(axis, 1);
        return lengths;
    }
    lengths
}

/// Whether lengths are equal.
fn equal(s: &[usize], t: &[usize]) -> bool
    ensures { result ≡ same s.now t.now }
{
    s == t
}

/// The lengths without one.
fn others(axis: usize, s: &[usize]) -> ArrayVec<usize, MAX_RANK>
    requires within { axis < length s.now }
    requires few { length s.now ≤ MAX_RANK }
    ensures { result.items ≡ without axis s.now }
{
    let mut lengths = same_lengths(s);
    lengths.remove(axis);
    lengths
}

/// Whether all lengths but that of an axis are equal.
pub(crate) fn others_agree(axis: usize, s: &[usize], t: &[usize]) -> bool
    requires s { axis < length s.now }
    requires t { axis < length t.now }
    requires few { length s.now ≤ MAX_RANK }
    requires few_too { length t.now ≤ MAX_RANK }
    ensures { result ≡ same (without axis s.now) (without axis t.now) }
{
    equal(others(axis, s).as_slice(), others(axis, t).as_slice())
}
