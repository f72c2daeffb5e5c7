// Axes that become one.
ghost use Rattle.std.specs.Prelude.{◌≡◌, ◌<◌, ◌≤◌, ◌^◌, length};
ghost use Rattle.std.specs.List.{All};
ghost use Rattle.apl_arrays.specs.inside.Joins.{joined_axis, joined_length, joined_skip, turned_axes, turned_skip};
ghost use Rattle.apl_arrays.specs.Strides.{reach_of};
ghost use Rattle.apl_arrays.specs.Views.{rank_of};

use crate::axis::Axis;
use crate::shape::MAX_RANK;
use arrayvec::ArrayVec;

/// How many axes there are then: one more than the greatest number.
fn result_rank(numbers: &[usize]) -> usize
    requires { rank_of numbers.now < 2 ^ 63 }
    ensures { result ≡ rank_of numbers.now }
{
    let mut rank = 0usize;
    for number in numbers {
        rank = rank.max(*number + 1);
    }
    rank
}

/// The least length of the axes that become axis `number`.
fn least_length(axes: &[Axis], numbers: &[usize], number: usize) -> usize
    requires { length numbers.now ≡ length axes.now }
    ensures { result ≡ joined_length numbers.now axes.now number }
{
    let mut least: Option<usize> = None;
    for m in 0..axes.len() {
        if numbers[m] != number {
            continue;
        }
        least = Some(axes[m].length.min(least.unwrap_or(axes[m].length)));
    }
    least.unwrap_or(0)
}

/// The axis that those with this number become, and how far its first element lies further on than theirs.
fn join(axes: &[Axis], numbers: &[usize], number: usize) -> (Axis, usize)
    requires each { length numbers.now ≡ length axes.now }
    requires near { reach_of 0 axes.now < 2 ^ 62 }
    ensures axis { result.0 ≡ joined_axis numbers.now axes.now number }
    ensures skip { result.1 ≡ joined_skip numbers.now axes.now number }
{
    let length = least_length(axes, numbers, number);
    let mut joined = Axis {
        length,
        up: 0,
        down: 0,
    };
    let mut skipped = 0usize;
    for m in 0..axes.len() {
        if numbers[m] != number {
            continue;
        }
        joined.up += axes[m].up;
        joined.down += axes[m].down;
        skipped += axes[m].down * (axes[m].length - length);
    }
    (joined, skipped)
}

/// What axes become by their numbers, and how far the first element lies further on then.
pub(crate) fn turn(axes: &[Axis], numbers: &[usize]) -> (ArrayVec<Axis, MAX_RANK>, usize)
    requires each { length numbers.now ≡ length axes.now }
    requires few { length axes.now ≤ MAX_RANK }
    requires within { All (λ m. m < length axes.now) numbers.now }
    requires near { reach_of 0 axes.now < 2 ^ 62 }
    ensures axes { result.0.items ≡ turned_axes numbers.now axes.now }
    ensures skip { result.1 ≡ turned_skip numbers.now axes.now }
{
    let mut turned = ArrayVec::new();
    let mut skipped = 0usize;
    for number in 0..result_rank(numbers) {
        let (axis, skip) = join(axes, numbers, number);
        turned.push(axis);
        skipped += skip;
    }
    (turned, skipped)
}
