// What is left of small numbers, by divisions of 32 bits, which cost less than those of 64.
ghost use Rattle.std.specs.Prelude.{◌≡◌, ◌<◌, ◌^◌, ◌%◌, ℕ, length, IsTrue, pos};
ghost use Rattle.apl_scalar.specs.declared.function.Dyadic.TheVariants as two;
ghost use Rattle.apl_scalar.specs.Functions.{dyadic_of, residue};
ghost use Rattle.apl_scalar.specs.Operands.{AreValues};
ghost use Rattle.apl_scalar.specs.inside.Turns.{AreSmall, IsSmall, turned};

use crate::line::Line;
use crate::overflow::wider;

/// The number itself, or the complement of a negative one.
#[inline(always)]
pub(crate) fn turned_up(y: i64) -> u64
    ensures { result ≡ turned y }
{
    (y ^ (y >> 63)).cast_unsigned()
}

/// What is left of a number by a positive divisor, by what is left of the number turned up.
#[inline(always)]
pub(crate) fn turned_back(y: i64, divisor: u64, rest: u64) -> i64
    requires divisor { (0 < divisor) × (divisor < 2 ^ 63) }
    requires rest { rest ≡ turned y % divisor }
    ensures { result ≡ residue (pos divisor) y }
{
    // -1 for a negative number, and else 0
    let sign = y >> 63;
    (rest as i64 ^ sign) + (divisor as i64 & sign)
}

/// The bound of the extents of small numbers.
const SMALL: u64 = 0x8000_0000;

/// A number that is below 2^31 only where the divisor is positive and both numbers have 32 bits.
#[inline(always)]
fn extent(x: i64, y: i64) -> u64
    ensures { result < 2 ^ 31 → IsSmall x y }
{
    wider(x.wrapping_sub(1).cast_unsigned(), turned_up(y))
}

/// Whether each divisor is positive and all numbers have 32 bits. The first ones are looked at before the others, since mostly all are alike.
#[inline(always)]
pub(crate) fn are_small<X: Line<i64>, Y: Line<i64>>(x: X, y: Y, count: usize) -> bool
    requires x { (k : ℕ) → k < count → X.has x k }
    requires y { (k : ℕ) → k < count → Y.has y k }
    ensures { IsTrue result → AreSmall (X.number x) (Y.number y) count }
{
    if count == 0 || SMALL <= extent(x.at(0), y.at(0)) {
        return count == 0;
    }
    let mut far = 0u64;
    for i in 0..count {
        far = wider(far, extent(x.at(i), y.at(i)));
    }
    far < SMALL
}

/// What is left of the second number when it is divided by the first.
#[inline(always)]
pub(crate) fn small_left(x: i64, y: i64) -> i64
    requires { IsSmall x y }
    ensures { result ≡ residue x y }
{
    let rest = turned_up(y) as u32 % x as u32;
    turned_back(y, x as u64, u64::from(rest))
}

/// Writes what is left at each place.
#[inline(always)]
pub(crate) fn fill_small<X: Line<i64>, Y: Line<i64>>(x: X, y: Y, out: &mut [i64])
    requires x { (k : ℕ) → k < length out.old → X.has x k }
    requires y { (k : ℕ) → k < length out.old → Y.has y k }
    requires small { AreSmall (X.number x) (Y.number y) (length out.old) }
    ensures { AreValues (dyadic_of two.Residue) (X.number x) (Y.number y) out.new }
{
    for i in 0..out.len() {
        out[i] = small_left(x.at(i), y.at(i));
    }
}
