// Inner products.
ghost use Rattle.std.specs.Prelude.{◌≡◌, ◌<◌, ◌*◌, ◌^◌, [], length, Ok, IfOk, IfSome};
ghost use Rattle.std.specs.List.{range_with_len};
ghost use Rattle.apl_arrays.specs.Answers.{Answers, FaultsFirst};
ghost use Rattle.apl_arrays.specs.Cells.{cells_of};
ghost use Rattle.apl_arrays.specs.Left.{listed};
ghost use Rattle.apl_arrays.specs.Numbers.{kept_values};
ghost use Rattle.apl_arrays.specs.Results.{all_ok, ok_map, and_then};
ghost use Rattle.apl_scalar.specs.declared.function.Dyadic.TheVariants as two;
ghost use Rattle.apl_scalar.specs.Functions.{dyadic_of};
ghost use Rattle.apl_folds.specs.Folds.{folded};
ghost use Rattle.apl_operators.specs.Products.{axes_joined, other_axes, inner_shape, inner_folds, inner_product};
ghost use Rattle.apl_operators.specs.Joints.{met, met_cells, folds_met, fold_after, so_far, step_of, Joins};

use crate::attempt::{Attempt, Sure};
use crate::joint::{Joint, joined, without_first, without_last};
use crate::line::{Stepped, meet};
use crate::small::SmallProduct;
use crate::standing::{FEW, Few, standing};
use crate::sums_of_products::sums_of_products;
use apl_arrays::{
    Array, Cells, Elements, NumberVec, Ravel, Stop, View, joined_shape, size, within_limits,
};
use apl_faults::Fault;
use apl_folds::{fold_numbers, in_order};
use apl_scalar::{ByFunction, Dyadic, Scalar};
use std::alloc::{AllocError, Global};

/// How far apart numbers stand along an axis that is so long: one of length 1 extends.
fn step_of(len: usize, step: usize) -> usize
    ensures { result ≡ step_of len step }
{
    if len == 1 { 0 } else { step }
}

/// Writes the values along the row and the column that meet at a place of the result.
fn meet_at<F: Attempt>(
    xs: &[i64],
    ys: &[i64],
    joint: &Joint,
    place: usize,
    row: &mut [i64],
) -> Result<(), Fault>
    requires joint { Joins joint.now (length xs.now) (length ys.now) }
    requires place { place < joint.now.rows * joint.now.columns }
    requires row { length row.old ≡ joint.now.joined }
    ensures { met F.meaning xs.now ys.now joint.now place ≡ ok_map (λ u. row.new) result }
{
    let left = Stepped {
        numbers: xs,
        from: (place / joint.columns) * joint.left,
        step: step_of(joint.left, 1),
    };
    let right = Stepped {
        numbers: ys,
        from: place % joint.columns,
        step: step_of(joint.right, joint.columns),
    };
    meet::<F, Stepped, Stepped>(&left, &right, row)
}

/// Appends the fold of a row, unless a fold before had a fault. It answers the first fault of all.
fn push_fold(
    out: &mut Vec<i64>,
    function: Dyadic,
    row: &[i64],
    refused: Option<Fault>,
) -> Result<Option<Fault>, AllocError>
    ensures { IfOk result (λ now. so_far out.new.items now ≡ fold_after function out.old.items refused row.now) }
{
    if refused.is_some() {
        return Ok(refused);
    }
    match fold_numbers(function, row) {
        Ok(value) => {
            out.push(value)?;
            Ok(None)
        }
        Err(fault) => Ok(Some(fault)),
    }
}

/// The folds of what meets at each place, by a row for what meets. A fault of what meets comes before those of the folds.
fn fold_each<F: Attempt>(
    alloc: Global,
    function: Dyadic,
    xs: &[i64],
    ys: &[i64],
    joint: &Joint,
    row: &mut [i64],
) -> Result<Vec<i64>, Stop>
    requires joint { Joins joint.now (length xs.now) (length ys.now) }
    requires small { joint.now.rows * joint.now.columns < 2 ^ 63 }
    requires row { length row.old ≡ joint.now.joined }
    ensures { Answers (λ v. v.items) (folds_met function (met F.meaning xs.now ys.now joint.now) joint.now) result }
{
    let count = joint.rows * joint.columns;
    let mut out = Vec::with_capacity(alloc, count)?;
    let mut refused = None;
    for place in 0..count {
        meet_at::<F>(xs, ys, joint, place, row)?;
        refused = push_fold(&mut out, function, row, refused)?;
    }
    match refused {
        None => Ok(out),
        Some(fault) => Err(Stop::Fault(fault)),
    }
}

/// The folds of what meets at each place.
fn fold_met<F: Attempt>(
    alloc: Global,
    function: Dyadic,
    xs: &[i64],
    ys: &[i64],
    joint: &Joint,
) -> Result<Vec<i64>, Stop>
    requires joint { Joins joint.now (length xs.now) (length ys.now) }
    requires small { joint.now.rows * joint.now.columns < 2 ^ 63 }
    ensures { Answers (λ v. v.items) (folds_met function (met F.meaning xs.now ys.now joint.now) joint.now) result }
{
    if joint.joined <= FEW {
        let mut few = [0i64; FEW];
        return fold_each::<F>(alloc, function, xs, ys, joint, &mut few[..joint.joined]);
    }
    let mut row = vec![in alloc; 0i64; joint.joined]?;
    fold_each::<F>(alloc, function, xs, ys, joint, row.as_mut_slice())
}

/// Rows and columns that meet by a scalar function, and the function that folds what they make.
#[derive(Clone, Copy)]
struct Meeting<'a> {
    alloc: Global,
    function: Dyadic,
    xs: &'a [i64],
    ys: &'a [i64],
    joint: &'a Joint,
}

impl<'a> ByFunction for Meeting<'a> {
    type Output = Result<Vec<i64>, Stop>;

    ghost can = { λ s f. Joins s.joint.now (length s.xs.now) (length s.ys.now) × (s.joint.now.rows * s.joint.now.columns < 2 ^ 63) };

    ghost gives = { λ s f result. Answers (λ v. v.items) (folds_met s.function (met f s.xs.now s.ys.now s.joint.now) s.joint.now) result };

    fn with<F: Scalar>(self) -> Result<Vec<i64>, Stop> {
        fold_met::<Sure<F>>(self.alloc, self.function, self.xs, self.ys, self.joint)
    }
}

/// The folds of what a function makes of rows and columns.
fn fold_met_by(
    alloc: Global,
    outer_function: Dyadic,
    inner_function: Dyadic,
    xs: &[i64],
    ys: &[i64],
    joint: &Joint,
) -> Result<Vec<i64>, Stop>
    requires joint { Joins joint.now (length xs.now) (length ys.now) }
    requires small { joint.now.rows * joint.now.columns < 2 ^ 63 }
    ensures { Answers (λ v. v.items) (folds_met outer_function (met (dyadic_of inner_function) xs.now ys.now joint.now) joint.now) result }
{
    match inner_function {
        Dyadic::Times => fold_met::<SmallProduct>(alloc, outer_function, xs, ys, joint),
        _ => inner_function.apply(Meeting {
            alloc,
            function: outer_function,
            xs,
            ys,
            joint,
        }),
    }
}

/// The folds of nothing, one for each place.
fn identities(alloc: Global, function: Dyadic, count: usize) -> Result<Vec<i64>, Stop>
    requires { 0 < count }
    ensures { Answers (λ v. v.items) (all_ok (λ k. folded function []) (range_with_len 0 count)) result }
{
    let identity = fold_numbers::<i64>(function, &[])?;
    Ok(vec![in alloc; identity; count]?)
}

/// The sums of the products of the elements of rows and columns, where they are asked for, and known to fit.
fn sums_of(
    alloc: Global,
    outer_function: Dyadic,
    inner_function: Dyadic,
    a: Elements<'_>,
    b: Elements<'_>,
    joint: &Joint,
) -> Result<Option<NumberVec>, AllocError>
    requires joint { Joins joint.now (length (cells_of (listed a))) (length (cells_of (listed b))) }
    requires small { joint.now.rows * joint.now.columns < 2 ^ 63 }
    ensures { IfOk result (λ found. IfSome found (λ v. folds_met outer_function (met_cells inner_function (listed a.entry) (listed b.entry) joint.now) joint.now ≡ Ok (kept_values v))) }
{
    let Dyadic::Plus = outer_function else {
        return Ok(None);
    };
    let Dyadic::Times = inner_function else {
        return Ok(None);
    };
    let Elements::Nums(a) = a else {
        return Ok(None);
    };
    let Elements::Nums(b) = b else {
        return Ok(None);
    };
    sums_of_products(alloc, a, b, joint)
}

/// The folds of what a function makes of the numbers that stand for the elements of rows and columns.
fn fold_standing(
    alloc: Global,
    outer_function: Dyadic,
    inner_function: Dyadic,
    a: Elements<'_>,
    b: Elements<'_>,
    joint: &Joint,
) -> Result<Vec<i64>, Stop>
    requires joint { Joins joint.now (length (cells_of (listed a))) (length (cells_of (listed b))) }
    requires small { joint.now.rows * joint.now.columns < 2 ^ 63 }
    requires some { 0 < joint.now.rows * joint.now.columns }
    ensures { Answers (λ v. v.items) (folds_met outer_function (met_cells inner_function (listed a.entry) (listed b.entry) joint.now) joint.now) result }
{
    if joint.joined == 0 {
        return identities(alloc, outer_function, joint.rows * joint.columns);
    }
    let mut few = Few::new();
    match standing(alloc, inner_function, a, b, &mut few)? {
        Some(found) => {
            let left = found.left.as_slice();
            let right = found.right.as_slice();
            fold_met_by(alloc, outer_function, inner_function, left, right, joint)
        }
        None => Err(Stop::Fault(Fault::Domain)),
    }
}

/// The folds of what a function makes of the elements of rows and columns.
fn fold_elements(
    alloc: Global,
    outer_function: Dyadic,
    inner_function: Dyadic,
    a: Elements<'_>,
    b: Elements<'_>,
    joint: &Joint,
) -> Result<NumberVec, Stop>
    requires joint { Joins joint.now (length (cells_of (listed a))) (length (cells_of (listed b))) }
    requires small { joint.now.rows * joint.now.columns < 2 ^ 63 }
    ensures { Answers kept_values (folds_met outer_function (met_cells inner_function (listed a.entry) (listed b.entry) joint.now) joint.now) result }
{
    if joint.rows * joint.columns == 0 {
        return Ok(NumberVec::I8(Vec::new(alloc)));
    }
    match sums_of(alloc, outer_function, inner_function, a, b, joint)? {
        Some(sums) => Ok(sums),
        None => Ok(NumberVec::I64(fold_standing(
            alloc,
            outer_function,
            inner_function,
            a,
            b,
            joint,
        )?)),
    }
}

/// The values in the order of the result's index lists.
fn inner_values(
    alloc: Global,
    outer_function: Dyadic,
    inner_function: Dyadic,
    a: &View<'_>,
    b: &View<'_>,
    joined: usize,
) -> Result<NumberVec, Stop>
    requires { axes_joined a.now b.now ≡ Ok joined }
    ensures { Answers kept_values (inner_folds outer_function inner_function a.now b.now joined (other_axes a.now b.now)) result }
{
    let a_shape = a.shape();
    let b_shape = b.shape();
    let (a_others, left) = without_last(a_shape.as_slice());
    let (b_others, right) = without_first(b_shape.as_slice());
    let a = in_order(alloc, a)?;
    let b = in_order(alloc, b)?;
    let joint = Joint {
        rows: size(a_others),
        columns: size(b_others),
        left,
        right,
        joined,
    };
    fold_elements(
        alloc,
        outer_function,
        inner_function,
        a.items(),
        b.items(),
        &joint,
    )
}

/// The inner product along the last axis of one array and the first axis of another: the inner function of the elements there, and then
/// the folds of its values by the outer function, in the shape of the other axes of the first array and then the second one's.
///
/// A scalar serves as a vector of one element, and an axis of length 1 extends. Other axes of unequal lengths are a length fault. Then it is
/// a limit fault where no array may have the shape: both are found before memory is asked for. Then the first fault of the inner function
/// decides, in ravel order of the result and then along the axis, and at last the first fault of the folds.
pub fn inner<A: Cells, B: Cells>(
    alloc: Global,
    outer_function: Dyadic,
    inner_function: Dyadic,
    a: &A,
    b: &B,
) -> Result<Array, Stop>
    ensures value { Answers (λ r. r) (inner_product outer_function inner_function (A.array a.now) (B.array b.now)) result }
    ensures at_once { FaultsFirst (and_then (axes_joined (A.array a.now) (B.array b.now)) (λ n. inner_shape (A.array a.now) (B.array b.now))) result }
{
    let a = a.view();
    let b = b.view();
    let a_shape = a.shape();
    let b_shape = b.shape();
    let (a_others, left) = without_last(a_shape.as_slice());
    let (b_others, right) = without_first(b_shape.as_slice());
    let length = joined(left, right)?;
    let shape = joined_shape(a_others, b_others);
    within_limits(shape.as_slice())?;
    let values = inner_values(alloc, outer_function, inner_function, &a, &b, length)?;
    Array::from_shape(alloc, shape.as_slice(), Ravel::Nums(values))
}
