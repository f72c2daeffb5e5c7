// Outer products.
ghost use Rattle.std.specs.Prelude.{◌≡◌, ◌<◌, ◌*◌, ◌^◌, ◌++◌, length, IfOk, IfSome, Ok};
ghost use Rattle.apl_arrays.specs.Answers.{Answers, Appends, FaultsFirst};
ghost use Rattle.apl_arrays.specs.Cells.{cells_of, IsArray};
ghost use Rattle.apl_arrays.specs.Index.{indices};
ghost use Rattle.apl_arrays.specs.Left.{listed};
ghost use Rattle.apl_arrays.specs.Numbers.{kept_values};
ghost use Rattle.apl_arrays.specs.Results.{all_ok};
ghost use Rattle.apl_scalar.specs.Functions.{dyadic_of};
ghost use Rattle.apl_operators.specs.Products.{paired, outer_shape, outer_product};
ghost use Rattle.apl_operators.specs.Places.{row_of, crossing, crossing_cells};

use crate::attempt::{Attempt, Sure};
use crate::line::{Each, Same, meet};
use crate::products::products;
use crate::small::SmallProduct;
use crate::standing::{Few, standing};
use apl_arrays::{
    Array, Cells, Elements, NumberVec, Ravel, Stop, View, joined_shape, within_limits,
};
use apl_faults::Fault;
use apl_folds::in_order;
use apl_scalar::{ByFunction, Dyadic, Scalar, grow};
use std::alloc::{AllocError, Global};

/// How many values are made at a time.
const BLOCK: usize = 512;

/// Appends the values of one number with each of a block of numbers, which are written where they stay.
fn push_block<F: Attempt>(out: &mut Vec<i64>, x: &Same, ys: &[i64]) -> Result<(), Stop>
    ensures { Appends out.old.items out.new.items (row_of F.meaning x.now.0 ys.now) result }
{
    let before = grow(out, ys.len())?;
    let values = out.as_mut_slice().split_at_mut(before).1;
    meet::<F, Same, Each>(x, &Each(ys), values)?;
    Ok(())
}

/// Appends the values of one number with each of others, block by block.
fn push_row<F: Attempt>(out: &mut Vec<i64>, x: &Same, ys: &[i64]) -> Result<(), Stop>
    ensures { Appends out.old.items out.new.items (row_of F.meaning x.now.0 ys.now) result }
{
    let mut from = 0usize;
    while from < ys.len() {
        let till = from + (ys.len() - from).min(BLOCK);
        push_block::<F>(out, x, &ys[from..till])?;
        from = till;
    }
    Ok(())
}

/// The values of each number with each of others.
fn cross<F: Attempt>(alloc: Global, xs: &[i64], ys: &[i64]) -> Result<Vec<i64>, Stop>
    requires { length xs.now * length ys.now < 2 ^ 63 }
    ensures { Answers (λ v. v.items) (crossing F.meaning xs.now ys.now) result }
{
    let mut out = Vec::with_capacity(alloc, xs.len() * ys.len())?;
    for i in 0..xs.len() {
        push_row::<F>(&mut out, &Same::new(xs, i), ys)?;
    }
    Ok(out)
}

/// Numbers, each of which meets each of others by a scalar function.
#[derive(Clone, Copy)]
struct Crossing<'a> {
    alloc: Global,
    xs: &'a [i64],
    ys: &'a [i64],
}

impl<'a> ByFunction for Crossing<'a> {
    type Output = Result<Vec<i64>, Stop>;

    ghost can = { λ s f. length s.xs.now * length s.ys.now < 2 ^ 63 };

    ghost gives = { λ s f result. Answers (λ v. v.items) (crossing f s.xs.now s.ys.now) result };

    fn with<F: Scalar>(self) -> Result<Vec<i64>, Stop> {
        cross::<Sure<F>>(self.alloc, self.xs, self.ys)
    }
}

/// The values of a function of each number with each of others.
fn cross_by(alloc: Global, function: Dyadic, xs: &[i64], ys: &[i64]) -> Result<Vec<i64>, Stop>
    requires { length xs.now * length ys.now < 2 ^ 63 }
    ensures { Answers (λ v. v.items) (crossing (dyadic_of function) xs.now ys.now) result }
{
    match function {
        Dyadic::Times => cross::<SmallProduct>(alloc, xs, ys),
        _ => function.apply(Crossing { alloc, xs, ys }),
    }
}

/// The products of each element with each of another array, where they are asked for, and known to fit.
fn products_of(
    alloc: Global,
    function: Dyadic,
    a: Elements<'_>,
    b: Elements<'_>,
) -> Result<Option<NumberVec>, AllocError>
    requires { length (cells_of (listed a)) * length (cells_of (listed b)) < 2 ^ 63 }
    ensures { IfOk result (λ found. IfSome found (λ v. crossing_cells function (listed a.entry) (listed b.entry) ≡ Ok (kept_values v))) }
{
    match function {
        Dyadic::Times => match a {
            Elements::Nums(a) => match b {
                Elements::Nums(b) => products(alloc, a, b),
                Elements::Chars(_) => Ok(None),
            },
            Elements::Chars(_) => Ok(None),
        },
        _ => Ok(None),
    }
}

/// The values of a function of each number that stands for an element with each of another array's.
fn cross_standing(
    alloc: Global,
    function: Dyadic,
    a: Elements<'_>,
    b: Elements<'_>,
) -> Result<Vec<i64>, Stop>
    requires some { 0 < length (cells_of (listed a)) * length (cells_of (listed b)) }
    requires small { length (cells_of (listed a)) * length (cells_of (listed b)) < 2 ^ 63 }
    ensures { Answers (λ v. v.items) (crossing_cells function (listed a.entry) (listed b.entry)) result }
{
    let mut few = Few::new();
    match standing(alloc, function, a, b, &mut few)? {
        Some(found) => cross_by(
            alloc,
            function,
            found.left.as_slice(),
            found.right.as_slice(),
        ),
        None => Err(Stop::Fault(Fault::Domain)),
    }
}

/// The values of a function of each element with each of another array.
fn cross_elements(
    alloc: Global,
    function: Dyadic,
    a: Elements<'_>,
    b: Elements<'_>,
) -> Result<NumberVec, Stop>
    requires { length (cells_of (listed a)) * length (cells_of (listed b)) < 2 ^ 63 }
    ensures { Answers kept_values (crossing_cells function (listed a.entry) (listed b.entry)) result }
{
    if a.is_empty() || b.is_empty() {
        return Ok(NumberVec::I8(Vec::new(alloc)));
    }
    match products_of(alloc, function, a, b)? {
        Some(products) => Ok(products),
        None => Ok(NumberVec::I64(cross_standing(alloc, function, a, b)?)),
    }
}

/// The values in the order of the result's index lists.
fn outer_values(
    alloc: Global,
    function: Dyadic,
    a: &View<'_>,
    b: &View<'_>,
) -> Result<NumberVec, Stop>
    requires a { IsArray a.now.shape a.now.items }
    requires b { IsArray b.now.shape b.now.items }
    ensures { Answers kept_values (all_ok (paired function a.now b.now) (indices (a.now.shape ++ b.now.shape))) result }
{
    let a = in_order(alloc, a)?;
    let b = in_order(alloc, b)?;
    cross_elements(alloc, function, a.items(), b.items())
}

/// The outer product: a function of each element of one array with each of another, in the shape of the first one and then the second one's.
///
/// It is a limit fault where no array may have this shape, before memory is asked for. Then the first fault in ravel order decides: a
/// character is a domain fault but for [`Dyadic::Equal`] and [`Dyadic::NotEqual`], and else it is what the function says of two numbers. An
/// empty result has no fault.
pub fn outer<A: Cells, B: Cells>(
    alloc: Global,
    function: Dyadic,
    a: &A,
    b: &B,
) -> Result<Array, Stop>
    ensures value { Answers (λ r. r) (outer_product function (A.array a.now) (B.array b.now)) result }
    ensures at_once { FaultsFirst (outer_shape (A.array a.now) (B.array b.now)) result }
{
    let a = a.view();
    let b = b.view();
    let shape = joined_shape(a.shape().as_slice(), b.shape().as_slice());
    within_limits(shape.as_slice())?;
    let values = outer_values(alloc, function, &a, &b)?;
    Array::from_shape(alloc, shape.as_slice(), Ravel::Nums(values))
}
