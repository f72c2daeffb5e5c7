// Reduction along an axis.
ghost use Rattle.std.specs.Prelude.{◌≡◌, ◌≢◌, ◌<◌, ◌≤◌, [], ◌∷◌, ◌+◌, length, map, slice_range, IfSome, Ok};
ghost use Rattle.apl_arrays.specs.Answers.{Answers, FaultsFirst};
ghost use Rattle.apl_arrays.specs.Along.{axis_along};
ghost use Rattle.apl_arrays.specs.Cells.{cells_of};
ghost use Rattle.apl_arrays.specs.declared.cell.Cell.TheVariants.{Num};
ghost use Rattle.apl_arrays.specs.Index.{bound_of, size_of};
ghost use Rattle.apl_arrays.specs.Left.{listed};
ghost use Rattle.apl_arrays.specs.Numbers.{values};
ghost use Rattle.apl_arrays.specs.Origins.{origin_number};
ghost use Rattle.apl_arrays.specs.Ravels.{items_of};
ghost use Rattle.apl_arrays.specs.Results.{ok_map};
ghost use Rattle.apl_arrays.specs.Strides.{IsView};
ghost use Rattle.apl_arrays.specs.Views.{length_of};
ghost use Rattle.apl_folds.specs.Folds.{folded, folds_along, folds_shaped, squeezed, reduced_along, reduction};
ghost use Rattle.apl_folds.specs.Lines.{shown_by};

use crate::fold::fold_numbers;
use crate::lanes::row;
use crate::lines::{Lines, folds_of_characters, folds_of_none, folds_of_numbers};
use crate::order::in_order;
use crate::walk::Start;
use apl_arrays::{
    Along, Array, Cells, Elements, MAX_ELEMENTS, MAX_RANK, NumberSlice, Origin, Ravel, Stop,
    Strided, View, copy_axes, size,
};
use apl_faults::Fault;
use apl_scalar::Dyadic;
use arrayvec::ArrayVec;
use std::alloc::Global;

/// The folds along an axis, not of length 1, in the order of the index lists of the other axes, with room for so many.
pub(crate) fn folds(
    alloc: Global,
    function: Dyadic,
    axis: usize,
    strided: &Strided<'_>,
    room: usize,
) -> Result<Vec<i64>, Stop>
    requires steps { IsView (listed strided.now.items) strided.now.offset strided.now.axes.now }
    requires few { length strided.now.axes.now ≤ MAX_RANK }
    requires axis { axis < length strided.now.axes.now }
    requires not_one { length_of (shown_by strided.now) axis ≢ 1 }
    ensures { Answers (λ v. v.items) (folds_along function axis (shown_by strided.now)) result }
{
    let mut others = copy_axes(strided.axes);
    let inner = others.remove(axis);
    let start = Start {
        at: strided.offset,
        count: inner.length,
        depth: None,
    };
    let lines = Lines {
        start,
        axes: others.as_slice(),
        inner,
        room,
    };
    if inner.length == 0 {
        return folds_of_none(alloc, function, &lines);
    }
    match strided.items {
        Elements::Nums(numbers) => folds_of_numbers(alloc, function, numbers, &lines),
        Elements::Chars(characters) => folds_of_characters(alloc, function, characters, &lines),
    }
}

/// The array of a shape that is within the limits.
pub(crate) fn formed(
    alloc: Global,
    shape: ArrayVec<usize, MAX_RANK>,
    ravel: Ravel,
) -> Result<Array, Stop>
    requires full { length (cells_of (items_of ravel)) ≡ size_of shape.items }
    requires small { bound_of shape.items ≤ MAX_ELEMENTS }
    ensures { Answers (λ r. r) (Ok (record { shape = shape.items; items = items_of ravel })) result }
{
    Array::new(alloc, shape, ravel)
}

/// The elements of a view in the shape without an axis of length 1.
fn squeeze(alloc: Global, axis: usize, view: &View<'_>) -> Result<Array, Stop>
    requires axis { axis < length view.now.shape }
    requires one { length_of view.now axis ≡ 1 }
    ensures { Answers (λ r. r) (Ok (squeezed axis view.now)) result }
{
    let mut shape = view.shape();
    shape.remove(axis);
    formed(
        alloc,
        shape,
        in_order(alloc, view)?.items().to_ravel(alloc)?,
    )
}

/// The fold of so many numbers from a place on.
fn piece_fold(
    function: Dyadic,
    numbers: NumberSlice<'_>,
    at: usize,
    count: usize,
) -> Result<i64, Fault>
    requires { at + count ≤ length (values numbers) }
    ensures { result ≡ folded function (map Num (slice_range (values numbers.entry) at (at + count))) }
{
    match numbers {
        NumberSlice::I8(numbers) => fold_numbers(function, row(numbers, at, count)),
        NumberSlice::I32(numbers) => fold_numbers(function, row(numbers, at, count)),
        NumberSlice::I64(numbers) => fold_numbers(function, row(numbers, at, count)),
    }
}

/// The fold of a vector of numbers that lie side by side, which is the whole of a reduction and takes no memory.
fn vector_fold(function: Dyadic, strided: &Strided<'_>) -> Option<Result<i64, Fault>>
    requires { IsView (listed strided.now.items) strided.now.offset strided.now.axes.now }
    ensures vector { IfSome result (λ fold. length strided.now.axes.now ≡ 1) }
    ensures value { IfSome result (λ fold. folds_along function 0 (shown_by strided.now) ≡ ok_map (λ z. z ∷ []) fold) }
{
    match strided.axes {
        [axis] => match strided.items {
            Elements::Nums(numbers) => {
                if axis.length == 0 || axis.up != 1 || axis.down != 0 {
                    return None;
                }
                let fold = piece_fold(function, numbers, strided.offset, axis.length);
                Some(fold)
            }
            Elements::Chars(_) => None,
        },
        _ => None,
    }
}

/// The folds along an axis, not of length 1, in the shape of the other axes, line by line.
fn fold_lines(alloc: Global, function: Dyadic, axis: usize, view: &View<'_>) -> Result<Array, Stop>
    requires axis { axis < length view.now.shape }
    requires not_one { length_of view.now axis ≢ 1 }
    ensures { Answers (λ r. r) (folds_shaped function axis view.now) result }
{
    let mut shape = view.shape();
    shape.remove(axis);
    let room = size(shape.as_slice());
    let numbers = folds(alloc, function, axis, &view.strided(), room)?;
    formed(alloc, shape, Ravel::wide(numbers))
}

/// The reduction along an axis, at once for a vector in one piece.
fn reduce_axis(alloc: Global, function: Dyadic, axis: usize, view: &View<'_>) -> Result<Array, Stop>
    requires { axis < length view.now.shape }
    ensures { Answers (λ r. r) (reduced_along function axis view.now) result }
{
    if view.shape().as_slice()[axis] == 1 {
        return squeeze(alloc, axis, view);
    }
    match vector_fold(function, &view.strided()) {
        Some(Ok(number)) => Ok(Array::number(number)),
        Some(Err(fault)) => Err(Stop::Fault(fault)),
        None => fold_lines(alloc, function, axis, view),
    }
}

/// The reduction of an array, or of a view of one, by a scalar function: the fold of the elements along an axis, for each index list of the
/// other axes and in their shape.
///
/// The axis is looked at first, before memory is asked for, and named wrongly it is an axis fault. Along an axis of length 1 the elements
/// stay as they are, and so does a scalar. Along one of length 0 each fold is the function's identity. Else the first fold that has a fault
/// decides, in ravel order.
pub fn reduce<C: Cells>(
    alloc: Global,
    function: Dyadic,
    along: Along,
    array: &C,
    origin: Origin,
) -> Result<Array, Stop>
    ensures value { Answers (λ r. r) (reduction function along.entry (C.array array.now) (origin_number origin)) result }
    ensures at_once { FaultsFirst (axis_along along.entry (length (C.array array.now).shape) (origin_number origin)) result }
{
    let view = array.view();
    match along.axis(view.rank(), origin) {
        Ok(Some(axis)) => reduce_axis(alloc, function, axis, &view),
        Ok(None) => Ok(view.copied(alloc)?),
        Err(fault) => Err(Stop::Fault(fault)),
    }
}
