// Axes by numbers of an array.
ghost use Rattle.std.specs.Prelude.{◌≡◌, ◌<◌, ◌≤◌, length, IfOk};
ghost use Rattle.std.specs.List.{All};
ghost use Rattle.apl_arrays.specs.Numbers.{values};
ghost use Rattle.apl_arrays.specs.Results.{all_ok, ok_map};
ghost use Rattle.apl_turns.specs.Turns.{axis_from, has_its_place, have_no_gap, named_axes};

use apl_arrays::{Array, MAX_RANK, NumberSlice, numbers_in};
use apl_faults::Fault;
use arrayvec::ArrayVec;

/// The axis that a number counts from the index origin, from 0. A number below the origin is a domain fault.
fn axis_from(origin: usize, number: i64) -> Result<usize, Fault>
    ensures { result ≡ axis_from origin number }
{
    if number < 0 {
        return Err(Fault::Domain);
    }
    let number = number as usize;
    if origin <= number {
        Ok(number - origin)
    } else {
        Err(Fault::Domain)
    }
}

/// The axes that numbers count, or the first fault.
fn axes_from(origin: usize, numbers: NumberSlice<'_>) -> Result<ArrayVec<usize, MAX_RANK>, Fault>
    requires { length (values numbers) ≤ MAX_RANK }
    ensures axes { all_ok (axis_from origin) (values numbers.entry) ≡ ok_map (λ axes. axes.items) result }
    ensures each { IfOk result (λ axes. length axes.items ≡ length (values numbers.entry)) }
{
    let mut axes = ArrayVec::new();
    for k in 0..numbers.len() {
        match axis_from(origin, numbers.at(k)) {
            Ok(axis) => axes.push(axis),
            Err(fault) => return Err(fault),
        }
    }
    Ok(axes)
}

/// Whether an axis is the first or follows one of these, and is below their count.
fn has_its_place(axes: &[usize], axis: usize) -> bool
    ensures { result ≡ has_its_place axes.now axis }
{
    if axis >= axes.len() {
        return false;
    }
    if axis == 0 {
        return true;
    }
    axes.contains(&(axis - 1))
}

/// Whether no axis below the greatest of these is missing.
fn have_no_gap(axes: &[usize]) -> bool
    ensures { result ≡ have_no_gap axes.now }
{
    for axis in axes {
        if !has_its_place(axes, *axis) {
            return false;
        }
    }
    true
}

/// The axes, from 0, that the elements of an array name for each of so many axes.
///
/// More than one axis is a rank fault, another count a length fault. A character is a domain fault, and so is a number below the origin, or a
/// gap between the numbers.
pub(crate) fn named_axes(
    a: &Array,
    rank: usize,
    origin: usize,
) -> Result<ArrayVec<usize, MAX_RANK>, Fault>
    requires { rank ≤ MAX_RANK }
    ensures axes { named_axes origin rank a.now ≡ ok_map (λ axes. axes.items) result }
    ensures each { IfOk result (λ axes. length axes.items ≡ rank) }
    ensures within { IfOk result (λ axes. All (λ m. m < rank) axes.items) }
{
    if a.rank() > 1 {
        return Err(Fault::Rank);
    }
    if a.items().len() != rank {
        return Err(Fault::Length);
    }
    let numbers = numbers_in(a.items())?;
    let axes = axes_from(origin, numbers)?;
    if have_no_gap(axes.as_slice()) {
        Ok(axes)
    } else {
        Err(Fault::Domain)
    }
}
