// The first or last elements along each axis, with fills where there are too few.
ghost use Rattle.std.specs.Prelude.{◌≡◌, ◌<◌, ◌≤◌, ◌+◌, ◌++◌, ◌^◌, true, false, IfOk, OnOk};
ghost use Rattle.std.specs.Prelude.{length, map, pos, slice_index_or, unsigned_abs};
ghost use Rattle.std.specs.Int.{is_negative};
ghost use Rattle.apl_arrays.specs.Answers.{Answers, FaultsFirst};
ghost use Rattle.apl_arrays.specs.Index.{bound_of, indices, size_of};
ghost use Rattle.apl_reshape.specs.inside.Asked.{has_enough};
ghost use Rattle.apl_reshape.specs.Take.{line_taken, place_taken, taken, taken_by, taken_from, widened};

use crate::lengths::{Asked, asked_of_each, axes_of, has_enough};
use crate::named::{counts_named, few, magnitudes};
use crate::parts::part_of;
use crate::pieces::repeat;
use apl_arrays::{Array, MAX_ELEMENTS, Stop, Structural, size};
use std::alloc::{AllocError, Global};

/// Whether the first count is from the end.
fn is_from_end(counts: &[i64]) -> bool
    requires { 0 < length counts.now }
    ensures { result ≡ is_negative (slice_index_or counts.now 0 (pos 0)) }
{
    counts[0] < 0
}

/// Which element of an axis is the one for an index among so many, or its length where there is none.
fn place_of(from_end: bool, length: usize, wanted: usize, index: usize) -> usize
    requires { index + length < 2 ^ 64 }
    ensures { result ≡ place_taken from_end length wanted index }
{
    if !from_end {
        index
    } else if wanted <= index + length {
        index + length - wanted
    } else {
        length
    }
}

/// Appends the first of these items, with fills behind them where there are too few.
fn push_first<T: Copy>(
    out: &mut Vec<T>,
    items: &[T],
    fill: T,
    wanted: usize,
) -> Result<(), AllocError>
    ensures { OnOk result (out.new.items ≡ out.old.items ++ line_taken false wanted items.now fill) }
{
    let kept = wanted.min(items.len());
    out.extend_from_slice(items.split_at(kept).0)?;
    repeat(out, fill, wanted - kept)?;
    Ok(())
}

/// Appends the last of these items, with fills before them where there are too few.
fn push_last<T: Copy>(
    out: &mut Vec<T>,
    items: &[T],
    fill: T,
    wanted: usize,
) -> Result<(), AllocError>
    ensures { OnOk result (out.new.items ≡ out.old.items ++ line_taken true wanted items.now fill) }
{
    let kept = wanted.min(items.len());
    repeat(out, fill, wanted - kept)?;
    out.extend_from_slice(items.split_at(items.len() - kept).1)?;
    Ok(())
}

/// Appends so many of these items from the start or from the end, with fills where there are too few.
fn push_line<T: Copy>(
    out: &mut Vec<T>,
    items: &[T],
    fill: T,
    from_end: bool,
    wanted: usize,
) -> Result<(), AllocError>
    ensures { OnOk result (out.new.items ≡ out.old.items ++ line_taken from_end wanted items.now fill) }
{
    if from_end {
        push_last(out, items, fill, wanted)?;
        return Ok(());
    }
    push_first(out, items, fill, wanted)?;
    Ok(())
}

/// Appends what is taken of items in a shape, row by row, where the lengths are the magnitudes of the counts. The last axis has a loop of
/// its own.
fn push_taken<T: Copy>(
    out: &mut Vec<T>,
    items: &[T],
    fill: T,
    shape: &[usize],
    counts: &[i64],
    lengths: &[usize],
) -> Result<(), AllocError>
    requires axes { length shape.now ≡ length counts.now }
    requires lengths { lengths.now ≡ map unsigned_abs counts.now }
    requires room { size_of shape.now ≤ length items.now }
    requires shape_small { bound_of shape.now ≤ MAX_ELEMENTS }
    requires small { bound_of lengths.now ≤ MAX_ELEMENTS }
    ensures { OnOk result (out.new.items ≡ out.old.items ++ map (taken_from shape.now counts.now items.now fill) (indices lengths.now)) }
{
    if counts.is_empty() {
        out.push(items[0])?;
        return Ok(());
    }
    let from_end = is_from_end(counts);
    if counts.len() == 1 {
        push_line(out, items.split_at(shape[0]).0, fill, from_end, lengths[0])?;
        return Ok(());
    }
    let others = shape.split_at(1).1;
    let step = size(others);
    let fills = size(lengths.split_at(1).1);
    for index in 0..lengths[0] {
        let place = place_of(from_end, shape[0], lengths[0], index);
        if place >= shape[0] {
            repeat(out, fill, fills)?;
            continue;
        }
        let row = items.split_at(place * step).1;
        push_taken(
            out,
            row,
            fill,
            others,
            counts.split_at(1).1,
            lengths.split_at(1).1,
        )?;
    }
    Ok(())
}

/// What is taken of items in a shape, where the lengths are the magnitudes of the counts.
#[derive(Clone, Copy)]
struct Taking<'s> {
    shape: &'s [usize],
    counts: &'s [i64],
    lengths: &'s [usize],
}

impl<'s> Structural for Taking<'s> {
    ghost use Rattle.std.specs.Prelude.{map};
    ghost use Rattle.apl_arrays.specs.Index.{indices};
    ghost use Rattle.apl_reshape.specs.inside.Taking.{IsTaken};
    ghost use Rattle.apl_reshape.specs.Take.{taken_from};

    ghost takes = { IsTaken };

    ghost makes = { λ A t d fill xs. map (taken_from t.shape.now t.counts.now xs fill) (indices t.lengths.now) };

    fn make<T: Copy>(self, alloc: Global, items: &[T], fill: T) -> Result<Vec<T>, AllocError> {
        let mut out = Vec::with_capacity(alloc, size(self.lengths))?;
        push_taken(&mut out, items, fill, self.shape, self.counts, self.lengths)?;
        Ok(out)
    }
}

/// What is taken of an array that has so many elements along each axis, where the lengths are the magnitudes of the counts.
fn part_taken(
    alloc: Global,
    b: &Array,
    counts: &[i64],
    lengths: &[usize],
) -> Result<Array, AllocError>
    requires lengths { lengths.now ≡ map unsigned_abs counts.now }
    requires enough { has_enough b.now.shape lengths.now ≡ true }
    ensures { IfOk result (λ r. r ≡ taken_by counts.now (widened (length counts.now) b.now)) }
{
    let starts = asked_of_each(Asked::StartTaken, b.shape(), counts);
    part_of(alloc, b, starts.as_slice(), lengths)
}

/// The first so many elements of B along each axis, or the last where the number in A is below 0, with fills, 0 or blank, where there are
/// too few.
///
/// A is a scalar or a vector, else it is a rank fault. It is a length fault where it has not a number for each axis, though a scalar B gets
/// as many axes as there are numbers. Characters are a domain fault. It is a limit fault where the result is beyond the limits. Every fault
/// is found before memory is asked for.
pub fn take_items(alloc: Global, a: &Array, b: &Array) -> Result<Array, Stop>
    ensures value { Answers (λ r. r) (taken a.now b.now) result }
    ensures at_once { FaultsFirst (taken a.now b.now) result }
{
    let own = b.shape();
    let numbers = few(counts_named(a, own)?)?;
    let counts = numbers.as_slice();
    let lengths = magnitudes(counts)?;
    let wanted = lengths.as_slice();
    if has_enough(own, wanted) {
        return Ok(part_taken(alloc, b, counts, wanted)?);
    }
    let shape = axes_of(counts.len(), own);
    let taking = Taking {
        shape: shape.as_slice(),
        counts,
        lengths: wanted,
    };
    let ravel = b.items().made_by(alloc, taking)?;
    Ok(Array::in_shape(alloc, wanted, ravel)?)
}
