// Sums of products of numbers so small that none leaves a type, whole rows of the second table at a time where these are long.
ghost use Rattle.std.specs.Prelude.{◌≡◌, ◌<◌, ◌≤◌, ◌+◌, ◌*◌, ◌^◌, ℕ, length, slice_index_or, pos, Ok, IsTrue, IfOk, IfSome};
ghost use Rattle.apl_arrays.specs.Numbers.{kept_values, values};
ghost use Rattle.apl_scalar.specs.declared.function.Dyadic.TheVariants as two;
ghost use Rattle.apl_scalar.specs.Functions.{dyadic_of};
ghost use Rattle.apl_operators.specs.Joints.{met, folds_met, Joins};
ghost use Rattle.apl_operators.specs.inside.SumsOfProducts.{product_of, sum_from, IsMore, FitTogether, AreRowSums, AreSums};

use crate::bounds::{fit_together, largest};
use crate::joint::Joint;
use crate::small::times;
use apl_arrays::{Both, Lane, NumberSlice, NumberVec};
use apl_scalar::grow;
use std::alloc::{AllocError, Global};

/// Below this many columns a row is so short that a sum of each place costs less.
const FEW: usize = 4;

/// The same of 64 bits, of which a processor makes one product at a time.
const MANY: usize = 32;

/// How many rows are added at a time.
const GROUP: usize = 4;

/// A sum and a product more where they fit, and some number elsewhere.
#[inline(always)]
fn more<L: Lane, M: Lane>(sum: M, x: L, y: L) -> M
    ensures { IsMore M.width (L.value x) (L.value y) (M.value sum) (M.value result) }
{
    M::low(times(x.wide(), y.wide()).wrapping_add(sum.wide()))
}

/// A sum with the products of so many numbers, from one on, and those of a column of a table that is so wide, the last one first.
#[inline(always)]
fn sum_column<L: Lane, M: Lane>(
    xs: &[L],
    ys: &[L],
    from: usize,
    count: usize,
    width: usize,
    column: usize,
    last: M,
) -> M
    requires within { from + count ≤ length xs.now }
    requires whole { length ys.now ≡ length xs.now * width }
    requires column { column < width }
    requires small { FitTogether M.width (L.numbers xs.now) (L.numbers ys.now) (length xs.now) }
    requires last { M.value last ≡ sum_from (product_of (L.numbers xs.now) (L.numbers ys.now) width column) (from + count) (length xs.now) }
    ensures { M.value result ≡ sum_from (product_of (L.numbers xs.now) (L.numbers ys.now) width column) from (length xs.now) }
{
    let mut sum = last;
    for i in (0..count).rev() {
        let k = from + i;
        sum = more(sum, xs[k], ys[k * width + column]);
    }
    sum
}

/// Adds to each sum the products of so many numbers, from one on, with those of a column of a table.
#[inline(always)]
fn add_rows<L: Lane, M: Lane>(xs: &[L], ys: &[L], from: usize, count: usize, sums: &mut [M])
    requires within { from + count ≤ length xs.now }
    requires whole { length ys.now ≡ length xs.now * length sums.old }
    requires small { FitTogether M.width (L.numbers xs.now) (L.numbers ys.now) (length xs.now) }
    requires last { AreRowSums (L.numbers xs.now) (L.numbers ys.now) (length sums.old) (length xs.now) (from + count) (M.numbers sums.old) }
    ensures { AreRowSums (L.numbers xs.now) (L.numbers ys.now) (length sums.old) (length xs.now) from (M.numbers sums.new) }
{
    let width = sums.len();
    for column in 0..width {
        sums[column] = sum_column(xs, ys, from, count, width, column, sums[column]);
    }
}

/// Makes of each 0 the sum of the products of numbers with those of a column of a table, whole rows of this at a time unless they are short.
#[inline(never)]
fn sum_row<L: Lane, M: Lane>(xs: &[L], ys: &[L], few: usize, sums: &mut [M])
    requires whole { length ys.now ≡ length xs.now * length sums.old }
    requires none { (q : ℕ) → q < length sums.old → slice_index_or (M.numbers sums.old) q (pos 0) ≡ pos 0 }
    requires small { FitTogether M.width (L.numbers xs.now) (L.numbers ys.now) (length xs.now) }
    ensures { AreRowSums (L.numbers xs.now) (L.numbers ys.now) (length sums.old) (length xs.now) 0 (M.numbers sums.new) }
{
    let mut k = xs.len();
    if sums.len() < few {
        add_rows(xs, ys, 0, k, sums);
        return;
    }
    while 0 < k {
        if k < GROUP {
            k -= 1;
            add_rows(xs, ys, k, 1, sums);
        } else {
            k -= GROUP;
            add_rows(xs, ys, k, GROUP, sums);
        }
    }
}

/// The sums of the products along each row of one table and each column of another.
fn sums_in<L: Lane, M: Lane>(
    alloc: Global,
    xs: &[L],
    ys: &[L],
    joint: &Joint,
    few: usize,
) -> Result<Vec<M>, AllocError>
    requires left { length xs.now ≡ joint.now.rows * joint.now.joined }
    requires right { length ys.now ≡ joint.now.joined * joint.now.columns }
    requires count { joint.now.rows * joint.now.columns < 2 ^ 63 }
    requires small { FitTogether M.width (L.numbers xs.now) (L.numbers ys.now) joint.now.joined }
    ensures { IfOk result (λ v. AreSums (L.numbers xs.now) (L.numbers ys.now) joint.now joint.now.rows (M.numbers v.items)) }
{
    let mut sums = Vec::with_capacity(alloc, joint.rows * joint.columns)?;
    for r in 0..joint.rows {
        let from = r * joint.joined;
        let before = grow(&mut sums, joint.columns)?;
        sum_row(
            &xs[from..from + joint.joined],
            ys,
            few,
            sums.as_mut_slice().split_at_mut(before).1,
        );
    }
    Ok(sums)
}

/// Whether no axis extends.
fn is_table(joint: &Joint) -> bool
    ensures left { IsTrue result → joint.now.left ≡ joint.now.joined }
    ensures right { IsTrue result → joint.now.right ≡ joint.now.joined }
{
    if joint.left != joint.joined {
        return false;
    }
    joint.right == joint.joined
}

/// The sums of the products along rows and columns of tables, in the narrowest type that is known to hold them.
fn sums_where_known<L: Lane>(
    alloc: Global,
    xs: &[L],
    ys: &[L],
    joint: &Joint,
) -> Result<Option<NumberVec>, AllocError>
    requires left { length xs.now ≡ joint.now.rows * joint.now.joined }
    requires right { length ys.now ≡ joint.now.joined * joint.now.columns }
    requires table { (joint.now.left ≡ joint.now.joined) × (joint.now.right ≡ joint.now.joined) }
    requires count { joint.now.rows * joint.now.columns < 2 ^ 63 }
    ensures { IfOk result (λ found. IfSome found (λ v. folds_met two.Plus (met (dyadic_of two.Times) (L.numbers xs.now) (L.numbers ys.now) joint.now) joint.now ≡ Ok (kept_values v))) }
{
    let left = largest(xs);
    let right = largest(ys);
    if fit_together::<i32>(left, right, joint.joined) {
        return Ok(Some(NumberVec::I32(sums_in(alloc, xs, ys, joint, FEW)?)));
    }
    if fit_together::<i64>(left, right, joint.joined) {
        return Ok(Some(NumberVec::I64(sums_in(alloc, xs, ys, joint, MANY)?)));
    }
    Ok(None)
}

/// The sums of the products along rows and columns, where the numbers are known to be so small that their order is all one.
pub(crate) fn sums_of_products(
    alloc: Global,
    a: NumberSlice<'_>,
    b: NumberSlice<'_>,
    joint: &Joint,
) -> Result<Option<NumberVec>, AllocError>
    requires joint { Joins joint.now (length (values a)) (length (values b)) }
    requires small { joint.now.rows * joint.now.columns < 2 ^ 63 }
    ensures { IfOk result (λ found. IfSome found (λ v. folds_met two.Plus (met (dyadic_of two.Times) (values a.entry) (values b.entry) joint.now) joint.now ≡ Ok (kept_values v))) }
{
    if !is_table(joint) {
        return Ok(None);
    }
    match Both::new(alloc, a, b)? {
        Both::I8(xs, ys) => sums_where_known(alloc, xs.as_slice(), ys.as_slice(), joint),
        Both::I32(xs, ys) => sums_where_known(alloc, xs.as_slice(), ys.as_slice(), joint),
        Both::I64(xs, ys) => sums_where_known(alloc, xs.as_slice(), ys.as_slice(), joint),
    }
}
