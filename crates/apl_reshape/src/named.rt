// Shapes that numbers name.
ghost use Rattle.std.specs.Prelude.{unsigned_abs, ◌≡◌, ◌≤◌, nat_le, IfOk, length, true, map};
ghost use Rattle.std.specs.Int.{is_negative};
ghost use Rattle.std.specs.List.{list_any};
ghost use Rattle.apl_arrays.specs.Checks.{demand, limited};
ghost use Rattle.apl_arrays.specs.Numbers.{values};
ghost use Rattle.apl_arrays.specs.Results.{ok_map};
ghost use Rattle.apl_reshape.specs.Reshape.{named_shape, shape_named};
ghost use Rattle.apl_reshape.specs.Take.{fits_axes, named_counts};

use apl_arrays::{Array, MAX_RANK, NumberSlice, numbers_in, within_limits};
use apl_faults::Fault;
use arrayvec::ArrayVec;

/// The same numbers, one for each axis. It is a limit fault where an array has fewer axes.
pub(crate) fn few(numbers: NumberSlice<'_>) -> Result<ArrayVec<i64, MAX_RANK>, Fault>
    ensures limit { demand (nat_le (length (values numbers.entry)) MAX_RANK) Fault.Limit ≡ ok_map (λ few. tt) result }
    ensures value { IfOk result (λ few. few.items ≡ values numbers.entry) }
{
    if numbers.len() > MAX_RANK {
        return Err(Fault::Limit);
    }
    let mut few = ArrayVec::new();
    for k in 0..numbers.len() {
        few.push(numbers.at(k));
    }
    Ok(few)
}

/// The magnitudes of numbers as a shape, if it is within the limits.
pub(crate) fn magnitudes(numbers: &[i64]) -> Result<ArrayVec<usize, MAX_RANK>, Fault>
    requires { length numbers.now ≤ MAX_RANK }
    ensures { limited (map unsigned_abs numbers.now) ≡ ok_map (λ s. s.items) result }
{
    let mut lengths = ArrayVec::new();
    for number in numbers {
        lengths.push(number.unsigned_abs() as usize);
    }
    within_limits(lengths.as_slice())?;
    Ok(lengths)
}

/// Whether a number is below 0.
fn any_negative(numbers: NumberSlice<'_>) -> bool
    ensures { result ≡ list_any is_negative (values numbers.entry) }
{
    for k in 0..numbers.len() {
        if numbers.at(k) < 0 {
            return true;
        }
    }
    false
}

/// The shape of these lengths.
fn shape_of_lengths(numbers: NumberSlice<'_>) -> Result<ArrayVec<usize, MAX_RANK>, Fault>
    ensures { shape_named (values numbers.entry) ≡ ok_map (λ s. s.items) result }
{
    if any_negative(numbers) {
        return Err(Fault::Domain);
    }
    let lengths = few(numbers)?;
    magnitudes(lengths.as_slice())
}

/// The shape that a scalar or a vector of lengths names.
pub(crate) fn shape_named_by(a: &Array) -> Result<ArrayVec<usize, MAX_RANK>, Fault>
    ensures { named_shape a.now ≡ ok_map (λ s. s.items) result }
{
    if a.rank() > 1 {
        return Err(Fault::Rank);
    }
    shape_of_lengths(numbers_in(a.items())?)
}

/// The numbers of A, one for each axis of a shape. For a scalar's any count serves.
pub(crate) fn counts_named<'a>(a: &'a Array, shape: &[usize]) -> Result<NumberSlice<'a>, Fault>
    ensures value { named_counts a.now shape.now ≡ ok_map values result }
    ensures fits { IfOk result (λ counts. fits_axes (length (values counts)) shape.now ≡ true) }
{
    if a.rank() > 1 {
        return Err(Fault::Rank);
    }
    if !shape.is_empty() && a.items().len() != shape.len() {
        return Err(Fault::Length);
    }
    numbers_in(a.items())
}
