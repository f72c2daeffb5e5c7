// The product, with a quick test of small numbers.
ghost use Rattle.std.specs.Prelude.{◌≡◌, ◌↔◌, ◌^◌, ◌<◌, ◌≤ℤ◌, ◌*ℤ◌, FitsSigned, pos};
ghost use Rattle.std.specs.Int.{w32, w64};
ghost use Rattle.apl_scalar.specs.declared.function.Dyadic.TheVariants as two;
ghost use Rattle.apl_scalar.specs.Functions.{dyadic_of};

use crate::attempt::Attempt;
use apl_faults::Fault;
use apl_scalar::{Product, Scalar, wider};

/// The product where it fits, and some number elsewhere.
#[inline(always)]
pub(crate) fn times(x: i64, y: i64) -> i64
    ensures { FitsSigned w64 (x *ℤ y) → result ≡ x *ℤ y }
{
    x.wrapping_mul(y)
}

/// A number that is below 2^32 exactly where the argument has 32 bits.
#[inline(always)]
fn spread(number: i64) -> u64
    ensures { result < 2 ^ 32 ↔ FitsSigned w32 number }
{
    number.wrapping_add(0x8000_0000).cast_unsigned()
}

/// A flag that is negative exactly where a number is not below 2^32.
#[inline(always)]
fn flag(number: u64) -> i64
    ensures { pos 0 ≤ℤ result ↔ number < 2 ^ 32 }
{
    -((number / 0x1_0000_0000) as i64)
}

/// The product, whose value is found first where both numbers have 32 bits, which takes no product of twice as many.
pub(crate) struct SmallProduct;

impl Attempt for SmallProduct {
    ghost meaning = { dyadic_of two.Times };

    ghost finds = { λ x y. FitsSigned w32 x × FitsSigned w32 y };

    #[inline(always)]
    fn apply(x: i64, y: i64) -> Result<i64, Fault> {
        Product::apply(x, y)
    }

    #[inline(always)]
    fn attempt(x: i64, y: i64) -> (i64, i64) {
        (times(x, y), flag(wider(spread(x), spread(y))))
    }
}
