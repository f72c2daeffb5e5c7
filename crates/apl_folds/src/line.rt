// Folds of the first items of lines of numbers.
ghost use Rattle.std.specs.Prelude.{◌≡◌, ◌^◌, ◌<◌, ◌≤◌, ◌+◌, ◌*◌, length, slice_index_or, pos};
ghost use Rattle.apl_arrays.specs.Strides.{step_at};
ghost use Rattle.apl_scalar.specs.Functions.{dyadic_of};
ghost use Rattle.apl_folds.specs.Lines.{line_fold, IsLine};

use crate::fold::fold_some;
use crate::lanes::{number_at, row};
use apl_arrays::{Axis, Lane, along};
use apl_faults::Fault;
use apl_scalar::{Dyadic, Scalar};

/// The number at an index of an axis.
#[inline(always)]
fn nth<L: Lane>(numbers: &[L], axis: &Axis, at: usize, index: usize) -> i64
    requires within { index < axis.now.length }
    requires near { at + (axis.now.up + axis.now.down) * axis.now.length < 2 ^ 63 }
    requires placed { at + step_at axis.now index < length numbers.now }
    ensures { result ≡ slice_index_or (L.numbers numbers.now) (at + step_at axis.now index) (pos 0) }
{
    number_at(numbers, along(at, axis, index))
}

/// The fold of the first numbers along an axis from a place on, each step tested.
pub(crate) fn fold_strided<F: Scalar, L: Lane>(
    numbers: &[L],
    axis: &Axis,
    at: usize,
    count: usize,
) -> Result<i64, Fault>
    requires { IsLine (length numbers.now) axis.now at count }
    ensures { result ≡ line_fold F.meaning (L.numbers numbers.now) axis.now at count }
{
    let last = count - 1;
    let mut all = nth(numbers, axis, at, last);
    for k in (0..last).rev() {
        match F::apply(nth(numbers, axis, at, k), all) {
            Ok(value) => all = value,
            Err(fault) => return Err(fault),
        }
    }
    Ok(all)
}

/// The fold of the first numbers along an axis from a place on. Where they lie side by side it is that of a row.
pub(crate) fn fold_line<F: Scalar, L: Lane>(
    function: Dyadic,
    numbers: &[L],
    axis: &Axis,
    at: usize,
    count: usize,
) -> Result<i64, Fault>
    requires function { F.meaning ≡ dyadic_of function }
    requires line { IsLine (length numbers.now) axis.now at count }
    ensures { result ≡ line_fold F.meaning (L.numbers numbers.now) axis.now at count }
{
    if axis.up != 1 {
        return fold_strided::<F, L>(numbers, axis, at, count);
    }
    if axis.down != 0 {
        return fold_strided::<F, L>(numbers, axis, at, count);
    }
    fold_some(function, row(numbers, at, count))
}
