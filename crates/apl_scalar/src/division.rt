// Exact quotients and what division leaves.
ghost use Rattle.std.specs.Prelude.{◌≡◌};
ghost use Rattle.apl_scalar.specs.declared.function.Monadic.TheVariants as one;
ghost use Rattle.apl_scalar.specs.declared.function.Dyadic.TheVariants as two;
ghost use Rattle.apl_scalar.specs.Functions.{monadic_of, dyadic_of, quotient, residue};

use crate::divisible::Divisible;
use crate::exact_quotients::fill_quotients;
use crate::function::Scalar;
use crate::in_narrow::InNarrow;
use crate::in_wide::InWide;
use crate::line::Line;
use crate::reciprocals::fill_left;
use crate::small_residues::{are_small, fill_small};
use apl_faults::Fault;

/// What is left of `y` when it is divided by `x`, with the sign of `x`.
#[inline(always)]
fn residue_by(x: i64, y: i64) -> i64
    ensures { result ≡ residue x y }
{
    if x == 0 {
        return y;
    }
    // It has the sign of `y`.
    let rest = y.wrapping_rem(x);
    if x > 0 {
        if rest < 0 { rest + x } else { rest }
    } else if rest > 0 {
        rest + x
    } else {
        rest
    }
}

pub(crate) struct Reciprocal;

impl Scalar for Reciprocal {
    ghost meaning = { λ _ y. monadic_of one.Divide y };

    #[inline(always)]
    fn apply(_x: i64, y: i64) -> Result<i64, Fault> {
        if y == 1 {
            Ok(1)
        } else if y == -1 {
            Ok(-1)
        } else {
            Err(Fault::Domain)
        }
    }
}

impl InWide for Reciprocal {}

/// The exact quotient.
pub struct Quotient;

impl Scalar for Quotient {
    ghost meaning = { dyadic_of two.Divide };

    #[inline(always)]
    fn apply(x: i64, y: i64) -> Result<i64, Fault> {
        if y == 0 {
            return if x == 0 { Ok(1) } else { Err(Fault::Domain) };
        }
        if y == -1 {
            return x.checked_neg().ok_or(Fault::Limit);
        }
        if x % y == 0 {
            Ok(x / y)
        } else {
            Err(Fault::Domain)
        }
    }
}

impl InWide for Quotient {
    // Where the quotients by one number are exact, its inverse makes them without a division.
    #[inline(always)]
    fn fill<X: Line<i64>, Y: Line<i64>>(x: X, y: Y, out: &mut [i64]) -> bool {
        if let Some(divisor) = y.only() {
            if 1 < divisor && fill_quotients(x, divisor as u64, out) {
                return true;
            }
        }
        Self::fill_tried(x, y, out)
    }
}

impl InNarrow for Quotient {
    #[inline(always)]
    fn divided<L: Divisible>(x: L, y: L) -> (L, L) {
        L::tried_quotient(x, y)
    }
}

/// What is left of the second number when it is divided by the first.
pub struct Residue;

impl Scalar for Residue {
    ghost meaning = { dyadic_of two.Residue };

    #[inline(always)]
    fn apply(x: i64, y: i64) -> Result<i64, Fault> {
        Ok(residue_by(x, y))
    }
}

impl InWide for Residue {
    // The reciprocal of one positive divisor serves for all. Else a division of 32 bits costs less than one of 64.
    #[inline(always)]
    fn fill<X: Line<i64>, Y: Line<i64>>(x: X, y: Y, out: &mut [i64]) -> bool {
        if let Some(divisor) = x.only() {
            if 0 < divisor {
                fill_left(divisor as u64, y, out);
                return true;
            }
        } else if are_small(x, y, out.len()) {
            fill_small(x, y, out);
            return true;
        }
        Self::fill_tried(x, y, out)
    }
}

impl InNarrow for Residue {
    #[inline(always)]
    fn divided<L: Divisible>(x: L, y: L) -> (L, L) {
        L::tried_residue(x, y)
    }
}
