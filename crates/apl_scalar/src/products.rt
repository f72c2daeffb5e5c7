// Products of small numbers, by their low halves.
ghost use Rattle.std.specs.Prelude.{◌≡◌, ◌<◌, ◌^◌, ◌*ℤ◌, ℕ, length, IfSome, IsTrue, Ok};
ghost use Rattle.apl_scalar.specs.declared.function.Dyadic.TheVariants as two;
ghost use Rattle.apl_scalar.specs.Functions.{dyadic_of, in_range};
ghost use Rattle.apl_scalar.specs.Operands.{AreValues};

use crate::line::Line;
use crate::overflow::wider;

/// What is below it tells that numbers are their low halves.
const LOW: u64 = 0x1_0000_0000;

/// How many products of a block tell whether the others are tried.
const FIRST: usize = 8;

/// The low half of a number with its sign, and a number that is below 2^32 only where that half is the whole.
#[inline(always)]
fn low_half(x: i64) -> (i32, u64)
    ensures { result.1 < 2 ^ 32 → x ≡ result.0 }
{
    let bits = x.cast_unsigned();
    let low = (bits & 0xFFFF_FFFF) as u32;
    (low.cast_signed(), bits.wrapping_add(0x8000_0000))
}

/// The product of the low halves, and a number that is below 2^32 only where it is that of the numbers.
#[inline(always)]
fn low_product(x: i64, y: i64) -> (i64, u64)
    ensures { result.1 < 2 ^ 32 → in_range (x *ℤ y) ≡ Ok result.0 }
{
    let (low_x, far_x) = low_half(x);
    let (low_y, far_y) = low_half(y);
    (i64::from(low_x) * i64::from(low_y), wider(far_x, far_y))
}

/// Whether the first products of a block are those of the low halves. Where they are not, a try at the others would mostly be lost.
#[inline(always)]
pub(crate) fn begins_low<X: Line<i64>, Y: Line<i64>>(x: X, y: Y, count: usize) -> bool
    requires x { (k : ℕ) → k < count → X.has x k }
    requires y { (k : ℕ) → k < count → Y.has y k }
{
    for i in 0..count.min(FIRST) {
        let (_, beyond) = low_product(x.at(i), y.at(i));
        if LOW <= beyond {
            return false;
        }
    }
    true
}

/// Writes the products of the low halves, each in one instruction, and says whether they are those of the numbers.
#[inline(always)]
pub(crate) fn fill_low<X: Line<i64>, Y: Line<i64>>(x: X, y: Y, out: &mut [i64]) -> bool
    requires x { (k : ℕ) → k < length out.old → X.has x k }
    requires y { (k : ℕ) → k < length out.old → Y.has y k }
    ensures { IsTrue result → AreValues (dyadic_of two.Times) (X.number x) (Y.number y) out.new }
{
    let mut far = 0u64;
    for i in 0..out.len() {
        let (product, beyond) = low_product(x.at(i), y.at(i));
        out[i] = product;
        far = wider(far, beyond);
    }
    far < LOW
}

/// The product that wraps, if division takes it back, so that it is the whole. The least number isn't divided, and not taken.
#[inline(always)]
fn whole_product(x: i64, y: i64) -> Option<i64>
    ensures { IfSome result (λ product. in_range (x *ℤ y) ≡ Ok product) }
{
    let product = x.wrapping_mul(y);
    if product == i64::MIN {
        return None;
    }
    if x != 0 && product / x != y {
        return None;
    }
    Some(product)
}

/// Writes the products, each tested before the next, and says whether all have values.
#[inline(always)]
pub(crate) fn fill_tested<X: Line<i64>, Y: Line<i64>>(x: X, y: Y, out: &mut [i64]) -> bool
    requires x { (k : ℕ) → k < length out.old → X.has x k }
    requires y { (k : ℕ) → k < length out.old → Y.has y k }
    ensures { IsTrue result → AreValues (dyadic_of two.Times) (X.number x) (Y.number y) out.new }
{
    for i in 0..out.len() {
        match whole_product(x.at(i), y.at(i)) {
            Some(product) => out[i] = product,
            None => return false,
        }
    }
    true
}
