// Two arrays joined along an axis.
ghost use Rattle.std.specs.Prelude.{◌≡◌, ◌<◌, ◌≤◌, length, max, drop, take, true};
ghost use Rattle.apl_arrays.specs.Answers.{Answers, FaultsFirst};
ghost use Rattle.apl_arrays.specs.Axes.{without};
ghost use Rattle.apl_arrays.specs.Checks.{same};
ghost use Rattle.apl_arrays.specs.Index.{bound_of, size_of};
ghost use Rattle.apl_arrays.specs.Origins.{origin_number};
ghost use Rattle.apl_reshape.specs.Catenate.{beside, catenated, joined_of, joined_on, joined_shape};
ghost use Rattle.apl_reshape.specs.inside.Rows.{is_scalar_shape};

use crate::beside::{lengths_beside, others_agree, replaced};
use crate::blocks::{Block, Rows};
use crate::pairs::{paired, ravel_joined};
use crate::vectors::join_vectors;
use apl_arrays::{Along, Array, MAX_ELEMENTS, MAX_RANK, Origin, Stop, size, within_limits};
use apl_faults::Fault;
use arrayvec::ArrayVec;
use std::alloc::Global;

/// The lengths of both together.
fn joined_lengths(axis: usize, s: &[usize], t: &[usize]) -> ArrayVec<usize, MAX_RANK>
    requires s { axis < length s.now }
    requires t { axis < length t.now }
    requires few { length s.now ≤ MAX_RANK }
    requires s_small { bound_of s.now ≤ MAX_ELEMENTS }
    requires t_small { bound_of t.now ≤ MAX_ELEMENTS }
    ensures { result.items ≡ joined_shape axis s.now t.now }
{
    replaced(s, axis, s[axis] + t[axis])
}

/// What of an operand stands in a row.
fn block_of(own: &[usize], axis: usize, s: &[usize]) -> Block
    requires within { axis ≤ length s.now }
    requires small { bound_of s.now ≤ MAX_ELEMENTS }
    ensures is_scalar { result.is_scalar ≡ is_scalar_shape own.now }
    ensures len { result.len ≡ size_of (drop axis s.now) }
{
    Block {
        is_scalar: own.is_empty(),
        len: size(s.split_at(axis).1),
    }
}

/// How many rows there are.
fn rows_before(axis: usize, s: &[usize]) -> usize
    requires within { axis ≤ length s.now }
    requires small { bound_of s.now ≤ MAX_ELEMENTS }
    ensures { result ≡ size_of (take axis s.now) }
{
    size(s.split_at(axis).0)
}

/// Two arrays with these lengths joined.
fn join_with(
    alloc: Global,
    axis: usize,
    s: &[usize],
    t: &[usize],
    a: &Array,
    b: &Array,
) -> Result<Array, Stop>
    requires s { s.now ≡ beside axis a.now.shape b.now.shape }
    requires t { t.now ≡ beside axis b.now.shape a.now.shape }
    requires within { axis < length s.now }
    requires lengths { length s.now ≡ length t.now }
    requires few { length s.now ≤ MAX_RANK }
    requires s_small { bound_of s.now ≤ MAX_ELEMENTS }
    requires t_small { bound_of t.now ≤ MAX_ELEMENTS }
    requires agree { same (without axis s.now) (without axis t.now) ≡ true }
    ensures value { Answers (λ r. r) (joined_of axis s.now t.now a.now b.now) result }
    ensures at_once { FaultsFirst (joined_of axis s.now t.now a.now b.now) result }
{
    let pair = paired(a.items(), b.items())?;
    let shape = joined_lengths(axis, s, t);
    within_limits(shape.as_slice())?;
    let rows = Rows {
        room: size(shape.as_slice()),
        count: rows_before(axis, s),
        x: block_of(a.shape(), axis, s),
        y: block_of(b.shape(), axis, t),
    };
    let ravel = ravel_joined(alloc, rows, pair)?;
    Ok(Array::in_shape(alloc, shape.as_slice(), ravel)?)
}

/// Two arrays joined along an axis.
fn join_on(alloc: Global, axis: usize, a: &Array, b: &Array) -> Result<Array, Stop>
    requires { axis < max (max (length a.now.shape) (length b.now.shape)) 1 }
    ensures value { Answers (λ r. r) (joined_on axis a.now b.now) result }
    ensures at_once { FaultsFirst (joined_on axis a.now b.now) result }
{
    let own = a.shape();
    let other = b.shape();
    if own.len() < 2 && other.len() < 2 {
        return join_vectors(alloc, a, b);
    }
    let s = lengths_beside(axis, own, other);
    let t = lengths_beside(axis, other, own);
    if s.len() != t.len() {
        return Err(Stop::Fault(Fault::Rank));
    }
    if !others_agree(axis, s.as_slice(), t.as_slice()) {
        return Err(Stop::Fault(Fault::Length));
    }
    join_with(alloc, axis, s.as_slice(), t.as_slice(), a, b)
}

/// A and B joined along an axis of the one with more axes, or two scalars as vectors.
///
/// The faults are first those of [`Along::axis`]. A scalar extends over the other axes, and an operand of one axis less gets the axis with
/// length 1; other ranks that differ are a rank fault, and then lengths that differ on another axis a length fault. Numbers with characters
/// are a domain fault, but an empty operand takes the other's type. It is a limit fault where the result is beyond the limits. Every fault
/// is found before memory is asked for.
pub fn catenate(
    alloc: Global,
    along: Along<'_>,
    a: &Array,
    b: &Array,
    origin: Origin,
) -> Result<Array, Stop>
    ensures value { Answers (λ r. r) (catenated along.entry (origin_number origin) a.now b.now) result }
    ensures at_once { FaultsFirst (catenated along.entry (origin_number origin) a.now b.now) result }
{
    match along.axis(a.rank().max(b.rank()), origin) {
        Ok(Some(axis)) => join_on(alloc, axis, a, b),
        Ok(None) => join_on(alloc, 0, a, b),
        Err(fault) => Err(Stop::Fault(fault)),
    }
}
