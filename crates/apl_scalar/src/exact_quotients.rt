// Exact quotients by one number for many, as products with its inverse among numbers of 64 bits.
ghost use Rattle.std.specs.Prelude.{◌≡◌, ◌<◌, ◌*◌, ◌%◌, ◌^◌, ℕ, pos, length, IsTrue, IfSome, Ok};
ghost use Rattle.apl_scalar.specs.Functions.{quotient};
ghost use Rattle.apl_scalar.specs.inside.Reciprocals.{AreQuotients, Divides};

use crate::line::Line;
use crate::overflow::wider;

/// What divides many numbers by one, which is an odd number shifted to the left. A number's product with `inverse` is its quotient by the odd
/// one, if it has one, and ends in as many zeros as the shift if it has one by both.
#[derive(Clone, Copy)]
struct Inverse {
    inverse: u64,
    shift: u32,
    /// Exact quotients from that below 0 up to this one are told. It is a power of two.
    half: u64,
    /// The same, shifted to the left.
    reach: u64,
}

/// A number whose product with an odd one ends in 64 bits that make 1. Each step makes twice as many of them right.
#[inline(always)]
fn inverse_of(odd: u64) -> Option<u64>
    ensures { IfSome result (λ inverse. inverse * odd % 2 ^ 64 ≡ 1) }
{
    let mut inverse = odd.wrapping_mul(3) ^ 2;
    for _ in 0..4 {
        let product = inverse.wrapping_mul(odd);
        inverse = inverse.wrapping_mul(2u64.wrapping_sub(product));
    }
    if inverse.wrapping_mul(odd) == 1 {
        Some(inverse)
    } else {
        None
    }
}

/// A power of two whose product with a number stays below 2^63.
#[inline(always)]
fn half_for(divisor: u64) -> u64
    requires { (1 < divisor) × (divisor < 2 ^ 63) }
    ensures { result * divisor < 2 ^ 63 }
{
    1u64 << (divisor.leading_zeros() - 1)
}

/// A number, and another that tells where the first is the exact quotient: where it is below twice the reach, and the bits that were shifted
/// out are 0.
#[inline(always)]
fn quotient_by(x: i64, divisor: u64, by: Inverse) -> (i64, u64)
    requires by { Divides divisor by }
    ensures { result.1 < 2 * by.reach → result.1 % 2 ^ by.shift ≡ 0 → quotient x (pos divisor) ≡ Ok result.0 }
{
    let _divisor = divisor;
    let product = x.cast_unsigned().wrapping_mul(by.inverse);
    let raised = product.wrapping_add(by.reach);
    let quotient = (raised >> by.shift).wrapping_sub(by.half);
    (quotient.cast_signed(), raised)
}

/// Writes a number for each place, and says whether all are exact quotients.
#[inline(always)]
fn fill_by<X: Line<i64>>(x: X, divisor: u64, by: Inverse, out: &mut [i64]) -> bool
    requires by { Divides divisor by }
    requires x { (k : ℕ) → k < length out.old → X.has x k }
    ensures { IsTrue result → AreQuotients divisor (X.number x) out.new }
{
    let mut raised = 0u64;
    for i in 0..out.len() {
        let (value, one) = quotient_by(x.at(i), divisor, by);
        out[i] = value;
        raised = wider(raised, one);
    }
    if by.reach * 2 <= raised {
        return false;
    }
    (raised >> by.shift) << by.shift == raised
}

/// Writes a number for each place, and says whether all are exact quotients by a divisor above 1.
pub(crate) fn fill_quotients<X: Line<i64>>(x: X, divisor: u64, out: &mut [i64]) -> bool
    requires divisor { (1 < divisor) × (divisor < 2 ^ 63) }
    requires x { (k : ℕ) → k < length out.old → X.has x k }
    ensures { IsTrue result → AreQuotients divisor (X.number x) out.new }
{
    let shift = divisor.trailing_zeros();
    let odd = divisor >> shift;
    if odd << shift != divisor {
        return false;
    }
    let Some(inverse) = inverse_of(odd) else {
        return false;
    };
    let half = half_for(divisor);
    if shift == 0 {
        return fill_by(
            x,
            divisor,
            Inverse {
                inverse,
                shift: 0,
                half,
                reach: half,
            },
            out,
        );
    }
    fill_by(
        x,
        divisor,
        Inverse {
            inverse,
            shift,
            half,
            reach: half << shift,
        },
        out,
    )
}
