// Values of digits by bases.
ghost use Rattle.std.specs.Prelude.{◌≡◌, ℕ, ◌+◌, ◌*◌, ◌<◌, ◌+ℤ◌, ◌*ℤ◌, pos, length, map, slice_index_or};
ghost use Rattle.std.specs.List.{range_with_len};
ghost use Rattle.apl_arrays.specs.Answers.{Answers, FaultsFirst};
ghost use Rattle.apl_arrays.specs.Numbers.{values};
ghost use Rattle.apl_arrays.specs.Results.{all_ok, ok_map};
ghost use Rattle.apl_scalar.specs.Functions.{in_range};
ghost use Rattle.apl_search.specs.Decoded.{bases_and_digits, decode, first_length, joined_count, served, shape_behind, valued};
ghost use Rattle.apl_search.specs.inside.Flat.{pair_at, value_by};

use apl_arrays::{Array, NumberSlice, Ravel, Stop, numbers_in, size};
use apl_faults::Fault;
use std::alloc::Global;

/// The place for one of so many, of which a single one serves at each.
#[inline(always)]
fn serving(count: usize, place: usize) -> usize
    ensures { result ≡ served count place }
{
    if count == 1 { 0 } else { place }
}

/// The number, if it fits 64 bits.
#[inline(always)]
pub(crate) fn narrowed(number: i128) -> Result<i64, Fault>
    ensures { result ≡ in_range number }
{
    match i64::try_from(number) {
        Ok(number) => Ok(number),
        Err(_) => Err(Fault::Limit),
    }
}

/// The value so far times a base, plus a digit.
#[inline(always)]
fn step(value: i64, base: i64, digit: i64) -> Result<i64, Fault>
    ensures { result ≡ in_range (value *ℤ base +ℤ digit) }
{
    narrowed(value as i128 * base as i128 + digit as i128)
}

/// How many bases and digits there are for each value.
fn count_for(bases: usize, digits: usize) -> Result<usize, Fault>
    ensures { result ≡ joined_count bases digits }
{
    if bases == 1 {
        return Ok(digits);
    }
    if digits == 1 {
        return Ok(bases);
    }
    if bases == digits {
        Ok(digits)
    } else {
        Err(Fault::Length)
    }
}

/// The value so far times the k-th base, plus the k-th of the digits that stand `width` places apart from `place` on.
#[inline(always)]
fn next_value(
    value: i64,
    bases: &[i64],
    digits: &[i64],
    along: usize,
    width: usize,
    place: usize,
    k: usize,
) -> Result<i64, Fault>
    requires base { served (length bases.now) k < length bases.now }
    requires digit { served along k * width + place < length digits.now }
    ensures { result ≡ in_range (value *ℤ (pair_at bases.now digits.now along width place k).0 +ℤ (pair_at bases.now digits.now along width place k).1) }
{
    let base = bases[serving(bases.len(), k)];
    let digit = digits[serving(along, k) * width + place];
    step(value, base, digit)
}

/// The value of so many digits that stand `width` places apart from `place` on.
fn value_at(
    bases: &[i64],
    digits: &[i64],
    along: usize,
    width: usize,
    place: usize,
    count: usize,
) -> Result<i64, Fault>
    requires bases { (k : ℕ) → k < count → served (length bases.now) k < length bases.now }
    requires digits { (k : ℕ) → k < count → served along k * width + place < length digits.now }
    ensures { result ≡ value_by bases.now digits.now along width place count }
{
    let mut value = 0i64;
    for k in 0..count {
        match next_value(value, bases, digits, along, width, place, k) {
            Ok(next) => value = next,
            Err(fault) => return Err(fault),
        }
    }
    Ok(value)
}

/// The values for all places below `width`.
fn values_of(
    alloc: Global,
    bases: &[i64],
    digits: &[i64],
    along: usize,
    width: usize,
    count: usize,
) -> Result<Vec<i64>, Stop>
    requires bases { (k : ℕ) → k < count → served (length bases.now) k < length bases.now }
    requires digits { (k p : ℕ) → k < count → p < width → served along k * width + p < length digits.now }
    ensures { Answers (λ v. v.items) (all_ok (λ p. value_by bases.now digits.now along width p count) (range_with_len 0 width)) result }
{
    let mut out = Vec::with_capacity(alloc, width)?;
    for place in 0..width {
        match value_at(bases, digits, along, width, place, count) {
            Ok(value) => out.push(value)?,
            Err(fault) => return Err(Stop::Fault(fault)),
        }
    }
    Ok(out)
}

/// How long the first axis is; a scalar counts as one element.
fn length_along(shape: &[usize]) -> usize
    ensures { result ≡ first_length shape.now }
{
    match shape {
        [] => 1,
        [length, ..] => *length,
    }
}

/// The shape without the first axis.
fn behind(shape: &[usize]) -> &[usize]
    ensures { result.now ≡ shape_behind shape.now }
{
    match shape {
        [] => &[],
        [_, rest @ ..] => rest,
    }
}

/// The bases and the digits as numbers, and how many there are for each value.
fn operands<'a>(
    a: &'a Array,
    b: &'a Array,
) -> Result<(NumberSlice<'a>, NumberSlice<'a>, usize), Fault>
    ensures { bases_and_digits a.now b.now ≡ ok_map (λ r. (values r.0, values r.1, r.2)) result }
{
    if a.rank() > 1 {
        return Err(Fault::Rank);
    }
    let count = count_for(a.items().len(), length_along(b.shape()))?;
    let bases = numbers_in(a.items())?;
    let digits = numbers_in(b.items())?;
    Ok((bases, digits, count))
}

/// The values of digits along the first axis of `b` by the bases of a scalar or vector `a`.
///
/// From 0 on, each value so far is multiplied by the next base, and the next digit is added. One base serves for all digits, and one digit
/// for all bases; a scalar `b` is one. The result has the shape of `b` without its first axis.
///
/// More than one axis of `a` is a rank fault, then other counts a length fault, then characters a domain fault: all these before memory is
/// asked for. Then a value that overflows 64 bits is a limit fault.
pub fn decode(alloc: Global, a: &Array, b: &Array) -> Result<Array, Stop>
    ensures value { Answers (λ r. r) (decode a.now b.now) result }
    ensures at_once { FaultsFirst (bases_and_digits a.now b.now) result }
{
    let (bases, digits, count) = operands(a, b)?;
    let shape = behind(b.shape());
    let wide_bases = bases.wide(alloc)?;
    let wide_digits = digits.wide(alloc)?;
    let values = values_of(
        alloc,
        wide_bases.as_slice(),
        wide_digits.as_slice(),
        length_along(b.shape()),
        size(shape),
        count,
    )?;
    Ok(Array::in_shape(alloc, shape, Ravel::wide(values))?)
}
