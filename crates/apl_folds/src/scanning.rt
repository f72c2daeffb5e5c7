// Scan along an axis.
ghost use Rattle.std.specs.Prelude.{◌≡◌, ◌<◌, length, cond, true, Err, Some};
ghost use Rattle.apl_faults.specs.declared.fault.Fault.TheVariants.{Domain};
ghost use Rattle.apl_arrays.specs.Answers.{Answers, FaultsFirst};
ghost use Rattle.apl_arrays.specs.Checks.{demand};
ghost use Rattle.apl_arrays.specs.Kinds.{are_numbers};
ghost use Rattle.apl_arrays.specs.Numbers.{kept_values};
ghost use Rattle.apl_arrays.specs.Origins.{origin_number};
ghost use Rattle.apl_arrays.specs.Index.{size_of};
ghost use Rattle.apl_folds.specs.Scans.{prefixes_along, prefixes_shaped, scannable, scan_checked, scanned_along, scanning};

use crate::order::in_order;
use crate::prefixes::prefixes;
use crate::reduction::formed;
use apl_arrays::{Along, Array, Axis, Cells, Elements, NumberVec, Origin, Ravel, Stop, View, size};
use apl_faults::Fault;
use apl_scalar::Dyadic;
use std::alloc::Global;

/// The folds of the first numbers along an axis, for each index list.
fn prefixes_in_order(
    alloc: Global,
    function: Dyadic,
    axis: usize,
    view: &View<'_>,
) -> Result<NumberVec, Stop>
    requires axis { axis < length view.now.shape }
    requires some { 0 < size_of view.now.shape }
    requires numbers { are_numbers view.now.items ≡ true }
    ensures { Answers (λ v. kept_values v) (prefixes_along function axis view.now) result }
{
    let shape = view.shape();
    let (to_axis, after) = shape.as_slice().split_at(axis + 1);
    let inner = Axis {
        length: to_axis[axis],
        up: size(after),
        down: 0,
    };
    let elements = in_order(alloc, view)?;
    match elements.items() {
        Elements::Nums(numbers) => prefixes(alloc, function, numbers, inner),
        Elements::Chars(_) => unreachable!(),
    }
}

/// The scan along an axis of a view that has elements, more than one along the axis.
fn scan_elements(
    alloc: Global,
    function: Dyadic,
    axis: usize,
    view: &View<'_>,
) -> Result<Array, Stop>
    requires axis { axis < length view.now.shape }
    requires some { 0 < size_of view.now.shape }
    ensures value { Answers (λ r. r) (cond (are_numbers view.now.items) (prefixes_shaped function axis view.now) (Err Domain)) result }
    ensures at_once { FaultsFirst (demand (are_numbers view.now.items) Domain) result }
{
    let strided = view.strided();
    match strided.items {
        Elements::Nums(_) => {
            let folds = prefixes_in_order(alloc, function, axis, view)?;
            formed(alloc, view.shape(), Ravel::Nums(folds))
        }
        Elements::Chars(_) => Err(Stop::Fault(Fault::Domain)),
    }
}

/// The scan along an axis.
fn scan_axis(alloc: Global, function: Dyadic, axis: usize, view: &View<'_>) -> Result<Array, Stop>
    requires { axis < length view.now.shape }
    ensures value { Answers (λ r. r) (scanned_along function axis view.now) result }
    ensures at_once { FaultsFirst (scannable view.now (Some axis)) result }
{
    let shape = view.shape();
    if size(shape.as_slice()) == 0 {
        return Ok(view.copied(alloc)?);
    }
    if shape.as_slice()[axis] == 1 {
        return Ok(view.copied(alloc)?);
    }
    scan_elements(alloc, function, axis, view)
}

/// The scan of an array, or of a view of one, by a scalar function: at each index list the fold of the elements along an axis up to the one
/// there, in the array's shape.
///
/// The axis is looked at first, and named wrongly it is an axis fault. A scalar, an empty array and one that is of length 1 along the axis
/// stay as they are. Characters are a domain fault, like the axis before memory is asked for. Else the first fold that has a fault decides,
/// in ravel order.
pub fn scan<C: Cells>(
    alloc: Global,
    function: Dyadic,
    along: Along,
    array: &C,
    origin: Origin,
) -> Result<Array, Stop>
    ensures value { Answers (λ r. r) (scanning function along.entry (C.array array.now) (origin_number origin)) result }
    ensures at_once { FaultsFirst (scan_checked along.entry (C.array array.now) (origin_number origin)) result }
{
    let view = array.view();
    match along.axis(view.rank(), origin) {
        Ok(Some(axis)) => scan_axis(alloc, function, axis, &view),
        Ok(None) => Ok(view.copied(alloc)?),
        Err(fault) => Err(Stop::Fault(fault)),
    }
}
