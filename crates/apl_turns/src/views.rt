// Results that are copied out of views.
ghost use Rattle.std.specs.Prelude.{◌≡◌, ◌+◌, ◌-◌, ◌<◌, ◌≤◌, map, length, Ok, IfOk};
ghost use Rattle.std.specs.List.{range_with_len};
ghost use Rattle.apl_arrays.specs.Answers.{Answers, FaultsFirst};
ghost use Rattle.apl_arrays.specs.Origins.{origin_number};
ghost use Rattle.apl_arrays.specs.Views.{reversed};
ghost use Rattle.apl_turns.specs.Turns.{transposed, transposed_by, reversed_along};

use crate::mirrored::reverse_last;
use crate::numbered_axes::named_axes;
use apl_arrays::{Along, Array, MAX_RANK, Origin, Stop, View};
use arrayvec::ArrayVec;
use std::alloc::{AllocError, Global};

/// What each of so many axes becomes, where they stand in the other order.
fn other_order(rank: usize) -> ArrayVec<usize, MAX_RANK>
    requires { rank ≤ MAX_RANK }
    ensures { result.items ≡ map (λ m. rank - 1 - m) (range_with_len 0 rank) }
{
    let mut axes = ArrayVec::new();
    for m in 0..rank {
        axes.push(rank - 1 - m);
    }
    axes
}

/// The axes of an array in the other order.
pub fn transpose(alloc: Global, b: &Array) -> Result<Array, Stop>
    ensures { Answers (λ r. r) (Ok (transposed b.now)) result }
{
    let axes = other_order(b.rank());
    Ok(View::whole(b).turned(axes.as_slice()).copied(alloc)?)
}

/// The axes of `b` as the numbers of `a` say: axis m becomes axis `a[m]`, counted from the index origin. Axes that become one show the
/// elements whose indices on them are equal.
///
/// More than one axis of `a` is a rank fault, another count than that of the axes of `b` a length fault. A character is a domain fault, and
/// so is a number below the origin, or a gap between the numbers. Every fault is found before memory is asked for.
pub fn transpose_by(alloc: Global, a: &Array, b: &Array, origin: Origin) -> Result<Array, Stop>
    ensures value { Answers (λ r. r) (transposed_by (origin_number origin) a.now b.now) result }
    ensures at_once { FaultsFirst (transposed_by (origin_number origin) a.now b.now) result }
{
    let axes = named_axes(a, b.rank(), origin.number())?;
    Ok(View::whole(b).turned(axes.as_slice()).copied(alloc)?)
}

/// An array with one of its axes taken the other way, by a view. It stands apart, so that the fast path of the last axis stays short.
#[inline(never)]
fn reverse_view(alloc: Global, b: &Array, axis: usize) -> Result<Array, AllocError>
    requires { axis < length b.now.shape }
    ensures { IfOk result (λ turned. turned ≡ reversed axis b.now) }
{
    View::whole(b).reversed(axis).copied(alloc)
}

/// An array with one of its axes taken the other way.
fn reverse_axis(alloc: Global, b: &Array, axis: usize) -> Result<Array, Stop>
    requires { axis < length b.now.shape }
    ensures { Answers (λ turned. turned) (Ok (reversed axis b.now)) result }
{
    let rank = b.rank();
    if axis + 1 == rank {
        return reverse_last(alloc, b, axis);
    }
    Ok(reverse_view(alloc, b, axis)?)
}

/// An array as it is. It stands apart, since it is for scalars alone.
#[inline(never)]
fn as_it_is(b: &Array) -> Result<Array, AllocError>
    ensures { IfOk result (λ same. same ≡ b.now) }
{
    b.copy()
}

/// An array with an axis taken the other way. A scalar stays.
///
/// The faults are those of [`Along::axis`], and are found before memory is asked for.
pub fn reverse(alloc: Global, along: Along<'_>, b: &Array, origin: Origin) -> Result<Array, Stop>
    ensures value { Answers (λ r. r) (reversed_along along.entry (origin_number origin) b.now) result }
    ensures at_once { FaultsFirst (reversed_along along.entry (origin_number origin) b.now) result }
{
    match along.axis(b.rank(), origin)? {
        Some(axis) => reverse_axis(alloc, b, axis),
        None => Ok(as_it_is(b)?),
    }
}
