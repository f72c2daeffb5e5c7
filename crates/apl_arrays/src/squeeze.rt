// Numbers in another type.
ghost use Rattle.std.specs.Prelude.{◌≡◌, ◌≤ℤ◌, ℤ, length, IfOk, IfSome, IsTrue, FitsSigned};
ghost use Rattle.std.specs.List.{All, Contains};
ghost use Rattle.std.specs.Int.{w64};
ghost use Rattle.apl_arrays.specs.Numbers.{kept_values};

use crate::lane::Lane;
use crate::numbers::NumberVec;
use std::alloc::{AllocError, Global};

/// Two numbers between which all of these lie, and 0: the least and the greatest.
pub fn range_of<L: Lane>(items: &[L]) -> (i64, i64)
    ensures { All (λ z. (result.0 ≤ℤ z) × (z ≤ℤ result.1)) (L.numbers items.now) }
{
    let mut least = L::low(0);
    let mut greatest = L::low(0);
    for item in items {
        least = least.lesser(*item);
        greatest = greatest.greater(*item);
    }
    (least.wide(), greatest.wide())
}

/// Whether a type holds each number between two.
#[tactic(auto, using(crate::proofs::Lanes::fits_between))]
pub fn holds<L: Lane>(least: i64, greatest: i64) -> bool
    ensures { IsTrue result → (z : ℤ) → least ≤ℤ z → z ≤ℤ greatest → FitsSigned L.width z }
{
    L::cut(least).is_some() && L::cut(greatest).is_some()
}

/// Writes numbers in another type, which holds them.
#[inline(always)]
pub fn convert<L: Lane, M: Lane>(items: &[L], out: &mut [M])
    requires each { length items.now ≡ length out.old }
    requires fits { (z : ℤ) → Contains (L.numbers items.now) z → FitsSigned L.width z → FitsSigned M.width z }
    ensures { M.numbers out.new ≡ L.numbers items.now }
{
    for k in 0..out.len() {
        out[k] = M::low(items[k].wide());
    }
}

/// Numbers again, in a type that holds them.
pub(crate) fn converted<L: Lane, M: Lane>(alloc: Global, items: &[L]) -> Result<Vec<M>, AllocError>
    requires { (z : ℤ) → Contains (L.numbers items.now) z → FitsSigned L.width z → FitsSigned M.width z }
    ensures { IfOk result (λ made. M.numbers made.items ≡ L.numbers items.now) }
{
    let mut made = Vec::from_elem(alloc, M::low(0), items.len())?;
    convert(items, made.as_mut_slice());
    Ok(made)
}

/// Numbers again, in the narrowest type that holds all of them; none where that has 64 bits.
pub(crate) fn narrow<L: Lane>(alloc: Global, items: &[L]) -> Result<Option<NumberVec>, AllocError>
    ensures { IfOk result (λ made. IfSome made (λ kept. kept_values kept ≡ L.numbers items.now)) }
{
    let (least, greatest) = range_of(items);
    if holds::<i8>(least, greatest) {
        Ok(Some(NumberVec::I8(converted(alloc, items)?)))
    } else if holds::<i32>(least, greatest) {
        Ok(Some(NumberVec::I32(converted(alloc, items)?)))
    } else {
        Ok(None)
    }
}

/// Reads each number: what is read fits its type. The compiler removes the loop.
pub(crate) fn inspect<L: Lane>(items: &[L])
    ensures { All (λ z. FitsSigned w64 z) (L.numbers items.now) }
{
    for item in items {
        let _number = item.wide();
    }
}
