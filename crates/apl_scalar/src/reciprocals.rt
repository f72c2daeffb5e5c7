// What is left of many numbers by one, by a product with its reciprocal.
ghost use Rattle.std.specs.Prelude.{◌≡◌, ◌<◌, ◌*◌, ◌/◌, ◌%◌, ◌^◌, ℕ, pos, length};
ghost use Rattle.apl_scalar.specs.Functions.{residue};
ghost use Rattle.apl_scalar.specs.inside.Reciprocals.{AreLeft, IsBelowReciprocal};

use crate::line::Line;
use crate::small_residues::{turned_back, turned_up};

/// The high half of a product.
#[inline(always)]
fn high_half(x: u64, y: u64) -> u64
    ensures { result ≡ x * y / 2 ^ 64 }
{
    x.carrying_mul(y, 0).1
}

/// What division leaves, where `inverse` times the divisor is just short of 2^64: the quotient by it is at most 1 too small.
#[inline(always)]
fn rest_by(number: u64, divisor: u64, inverse: u64) -> u64
    requires inverse { IsBelowReciprocal divisor inverse }
    requires divisor { (0 < divisor) × (divisor < 2 ^ 63) }
    ensures { result ≡ number % divisor }
{
    let rest = number - high_half(number, inverse) * divisor;
    if divisor <= rest {
        rest - divisor
    } else {
        rest
    }
}

/// Writes what is left of each number by a positive divisor.
#[inline(always)]
pub(crate) fn fill_left<Y: Line<i64>>(divisor: u64, y: Y, out: &mut [i64])
    requires divisor { (0 < divisor) × (divisor < 2 ^ 63) }
    requires y { (k : ℕ) → k < length out.old → Y.has y k }
    ensures { AreLeft divisor (Y.number y) out.new }
{
    let inverse = u64::MAX / divisor;
    for i in 0..out.len() {
        let number = y.at(i);
        let rest = rest_by(turned_up(number), divisor, inverse);
        out[i] = turned_back(number, divisor, rest);
    }
}
