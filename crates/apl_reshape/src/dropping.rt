// What is left without the first or last elements along each axis.
ghost use Rattle.std.specs.Prelude.{◌≡◌, ◌≤◌, length, IfOk, true};
ghost use Rattle.apl_arrays.specs.Answers.{Answers, FaultsFirst};
ghost use Rattle.apl_reshape.specs.Take.{dropped, dropped_by, fits_axes, widened};

use crate::lengths::{Asked, asked_of_each, ones};
use crate::named::{counts_named, few};
use crate::parts::part_of;
use crate::rounds::Round;
use apl_arrays::{Array, MAX_RANK, Stop, size};
use std::alloc::{AllocError, Global};

/// What is left of an array with as many axes as there are counts.
fn left_of(alloc: Global, counts: &[i64], b: &Array) -> Result<Array, AllocError>
    requires { length counts.now ≡ length b.now.shape }
    ensures { IfOk result (λ r. r ≡ dropped_by counts.now b.now) }
{
    let shape = b.shape();
    let starts = asked_of_each(Asked::StartLeft, shape, counts);
    let lengths = asked_of_each(Asked::Left, shape, counts);
    part_of(alloc, b, starts.as_slice(), lengths.as_slice())
}

/// What is left of a scalar with as many axes of length 1 as there are counts: its element, or none.
fn left_of_scalar(alloc: Global, counts: &[i64], b: &Array) -> Result<Array, AllocError>
    requires few { length counts.now ≤ MAX_RANK }
    requires scalar { length b.now.shape ≡ 0 }
    ensures { IfOk result (λ r. r ≡ dropped_by counts.now (widened (length counts.now) b.now)) }
{
    let axes = ones(counts.len());
    let lengths = asked_of_each(Asked::Left, axes.as_slice(), counts);
    let round = Round {
        count: size(lengths.as_slice()),
    };
    let left = b.items().made_by(alloc, round)?;
    Ok(Array::in_shape(alloc, lengths.as_slice(), left)?)
}

/// What is left of an array, where a scalar gets as many axes as there are counts.
fn left_of_widened(alloc: Global, counts: &[i64], b: &Array) -> Result<Array, AllocError>
    requires few { length counts.now ≤ MAX_RANK }
    requires fits { fits_axes (length counts.now) b.now.shape ≡ true }
    ensures { IfOk result (λ r. r ≡ dropped_by counts.now (widened (length counts.now) b.now)) }
{
    if b.rank() == 0 {
        return left_of_scalar(alloc, counts, b);
    }
    left_of(alloc, counts, b)
}

/// What is left of B without the first so many elements along each axis, or without the last where the number in A is below 0.
///
/// A is a scalar or a vector, else it is a rank fault. It is a length fault where it has not a number for each axis, though a scalar B gets
/// as many axes as there are numbers. Characters are a domain fault. It is a limit fault where a scalar gets too many axes. Every fault is
/// found before memory is asked for.
pub fn drop_items(alloc: Global, a: &Array, b: &Array) -> Result<Array, Stop>
    ensures value { Answers (λ r. r) (dropped a.now b.now) result }
    ensures at_once { FaultsFirst (dropped a.now b.now) result }
{
    let counts = few(counts_named(a, b.shape())?)?;
    Ok(left_of_widened(alloc, counts.as_slice(), b)?)
}
