// Outer products of numbers so small that no product leaves a type, in the narrowest type of which this is known.
ghost use Rattle.std.specs.Prelude.{◌≡◌, ◌<◌, ◌*◌, ◌^◌, ◌*ℤ◌, ℕ, FitsSigned, length, slice_index_or, pos, Ok, IfOk, IfSome, OnOk};
ghost use Rattle.apl_arrays.specs.Numbers.{kept_values, values};
ghost use Rattle.apl_scalar.specs.declared.function.Dyadic.TheVariants as two;
ghost use Rattle.apl_scalar.specs.Functions.{dyadic_of};
ghost use Rattle.apl_operators.specs.Places.{crossing};
ghost use Rattle.apl_operators.specs.inside.SumsOfProducts.{FitTogether};
ghost use Rattle.apl_operators.specs.inside.SmallProducts.{AddsProducts};

use crate::bounds::{fit_together, largest};
use crate::small::times;
use apl_arrays::{Both, Lane, NumberSlice, NumberVec};
use apl_scalar::grow;
use std::alloc::{AllocError, Global};

/// A row of more numbers than this is not made at once, since it would not stay in the nearest memory until it is multiplied.
const LONG: usize = 4096;

/// How many products of 64 bits are made at a time: so many that their zeros are still in the nearest memory when they are written over. Of
/// narrower ones as many more fit there.
const PIECE: usize = 128;

/// Fewer products than these are made one by one, since to make room for them and write over it costs more.
const FEW: usize = 8;

/// A product in a type that holds it.
#[inline(always)]
fn product<L: Lane, M: Lane>(x: i64, y: L) -> M
    ensures { FitsSigned M.width (x *ℤ L.value y) → M.value result ≡ x *ℤ L.value y }
{
    M::low(times(x, y.wide()))
}

/// Writes the products of a number with others.
#[inline(never)]
fn multiply<L: Lane, M: Lane>(x: i64, ys: &[L], out: &mut [M])
    requires size { length out.old ≡ length ys.now }
    requires fits { (k : ℕ) → k < length ys.now → FitsSigned M.width (x *ℤ slice_index_or (L.numbers ys.now) k (pos 0)) }
    ensures { (k : ℕ) → k < length ys.now → slice_index_or (M.numbers out.new) k (pos 0) ≡ x *ℤ slice_index_or (L.numbers ys.now) k (pos 0) }
{
    for k in 0..out.len() {
        out[k] = product(x, ys[k]);
    }
}

/// Appends the products of a number with few others.
fn push_few<L: Lane, M: Lane>(out: &mut Vec<M>, x: i64, ys: &[L]) -> Result<(), AllocError>
    requires { (k : ℕ) → k < length ys.now → FitsSigned M.width (x *ℤ slice_index_or (L.numbers ys.now) k (pos 0)) }
    ensures { OnOk result (AddsProducts x (L.numbers ys.now) (M.numbers out.old.items) (M.numbers out.new.items)) }
{
    for k in 0..ys.len() {
        out.push(product(x, ys[k]))?;
    }
    Ok(())
}

/// Appends the products of a number with others, which are written over as many zeros.
fn push_piece<L: Lane, M: Lane>(out: &mut Vec<M>, x: i64, ys: &[L]) -> Result<(), AllocError>
    requires { (k : ℕ) → k < length ys.now → FitsSigned M.width (x *ℤ slice_index_or (L.numbers ys.now) k (pos 0)) }
    ensures { OnOk result (AddsProducts x (L.numbers ys.now) (M.numbers out.old.items) (M.numbers out.new.items)) }
{
    let before = grow(out, ys.len())?;
    multiply(x, ys, out.as_mut_slice().split_at_mut(before).1);
    Ok(())
}

/// Appends the products of a number with others, piece by piece.
fn push_products<L: Lane, M: Lane>(
    out: &mut Vec<M>,
    x: i64,
    ys: &[L],
    piece: usize,
) -> Result<(), AllocError>
    requires some { 0 < piece }
    requires fits { (k : ℕ) → k < length ys.now → FitsSigned M.width (x *ℤ slice_index_or (L.numbers ys.now) k (pos 0)) }
    ensures { OnOk result (AddsProducts x (L.numbers ys.now) (M.numbers out.old.items) (M.numbers out.new.items)) }
{
    if ys.len() < FEW {
        return push_few(out, x, ys);
    }
    let mut from = 0usize;
    while from < ys.len() {
        let till = from + (ys.len() - from).min(piece);
        push_piece(out, x, &ys[from..till])?;
        from = till;
    }
    Ok(())
}

/// The products of each number with each of others.
fn multiply_each<L: Lane, M: Lane>(
    alloc: Global,
    xs: &[L],
    ys: &[L],
    piece: usize,
) -> Result<Vec<M>, AllocError>
    requires some { 0 < piece }
    requires count { length xs.now * length ys.now < 2 ^ 63 }
    requires small { FitTogether M.width (L.numbers xs.now) (L.numbers ys.now) 1 }
    ensures { IfOk result (λ v. crossing (dyadic_of two.Times) (L.numbers xs.now) (L.numbers ys.now) ≡ Ok (M.numbers v.items)) }
{
    let mut out = Vec::with_capacity(alloc, xs.len() * ys.len())?;
    for r in 0..xs.len() {
        push_products(&mut out, xs[r].wide(), ys, piece)?;
    }
    Ok(out)
}

/// The products of each number with each of others, where all are known to fit.
fn multiply_all<L: Lane>(alloc: Global, xs: &[L], ys: &[L]) -> Result<Option<NumberVec>, AllocError>
    requires { length xs.now * length ys.now < 2 ^ 63 }
    ensures { IfOk result (λ found. IfSome found (λ v. crossing (dyadic_of two.Times) (L.numbers xs.now) (L.numbers ys.now) ≡ Ok (kept_values v))) }
{
    let left = largest(xs);
    let right = largest(ys);
    if fit_together::<i8>(left, right, 1) {
        return Ok(Some(NumberVec::I8(multiply_each(alloc, xs, ys, 8 * PIECE)?)));
    }
    if fit_together::<i32>(left, right, 1) {
        return Ok(Some(NumberVec::I32(multiply_each(alloc, xs, ys, 2 * PIECE)?)));
    }
    if fit_together::<i64>(left, right, 1) {
        return Ok(Some(NumberVec::I64(multiply_each(alloc, xs, ys, PIECE)?)));
    }
    Ok(None)
}

/// The products of each number with each of others, where all are known to fit and these are not too many.
pub(crate) fn products(
    alloc: Global,
    a: NumberSlice<'_>,
    b: NumberSlice<'_>,
) -> Result<Option<NumberVec>, AllocError>
    requires { length (values a) * length (values b) < 2 ^ 63 }
    ensures { IfOk result (λ found. IfSome found (λ v. crossing (dyadic_of two.Times) (values a.entry) (values b.entry) ≡ Ok (kept_values v))) }
{
    if LONG < b.len() {
        return Ok(None);
    }
    match Both::new(alloc, a, b)? {
        Both::I8(xs, ys) => multiply_all(alloc, xs.as_slice(), ys.as_slice()),
        Both::I32(xs, ys) => multiply_all(alloc, xs.as_slice(), ys.as_slice()),
        Both::I64(xs, ys) => multiply_all(alloc, xs.as_slice(), ys.as_slice()),
    }
}
