// Parts of arrays, copied out of views.
ghost use Rattle.std.specs.Prelude.{◌≡◌, ℕ, ◌+◌, ◌<◌, ◌≤◌, length, IfOk, slice_index_or};
ghost use Rattle.apl_reshape.specs.Take.{part};

use apl_arrays::{Array, View};
use std::alloc::{AllocError, Global};

/// The part of an array that begins at these indices and has these lengths.
pub(crate) fn part_of(
    alloc: Global,
    b: &Array,
    froms: &[usize],
    lens: &[usize],
) -> Result<Array, AllocError>
    requires froms { length froms.now ≡ length b.now.shape }
    requires lens { length lens.now ≡ length b.now.shape }
    requires within { (k : ℕ) → k < length b.now.shape → slice_index_or froms.now k 0 + slice_index_or lens.now k 0 ≤ slice_index_or b.now.shape k 0 }
    ensures { IfOk result (λ r. r ≡ part froms.now lens.now b.now) }
{
    let mut view = View::whole(b);
    for axis in 0..froms.len() {
        view = view.cut(axis, froms[axis], lens[axis]);
    }
    view.copied(alloc)
}
