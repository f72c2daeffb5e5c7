// Powers and factorials.
ghost use Rattle.std.specs.Prelude.{◌≡◌, ◌≤◌, pos, Ok};
ghost use Rattle.std.specs.Int.{int_pow};
ghost use Rattle.apl_scalar.specs.declared.function.Monadic.TheVariants as one;
ghost use Rattle.apl_scalar.specs.declared.function.Dyadic.TheVariants as two;
ghost use Rattle.apl_scalar.specs.Functions.{in_range, monadic_of, dyadic_of, power, factorial_of};

use crate::function::Scalar;
use crate::in_wide::InWide;
use apl_faults::Fault;

/// The factorials that fit 64 bits.
const FACTORIALS: [i64; 21] = [
    1,
    1,
    2,
    6,
    24,
    120,
    720,
    5040,
    40320,
    362880,
    3628800,
    39916800,
    479001600,
    6227020800,
    87178291200,
    1307674368000,
    20922789888000,
    355687428096000,
    6402373705728000,
    121645100408832000,
    2432902008176640000,
];

/// A power whose exponent is not negative.
fn tested_power(x: i64, exponent: u32) -> Result<i64, Fault>
    ensures { result ≡ in_range (int_pow x exponent) }
{
    x.checked_pow(exponent).ok_or(Fault::Limit)
}

/// One of the listed factorials.
fn listed_factorial(n: usize) -> i64
    requires { n ≤ 20 }
    ensures { factorial_of (pos n) ≡ Ok result }
{
    FACTORIALS[n]
}

/// The first number to the power of the second.
pub struct Power;

impl Scalar for Power {
    ghost meaning = { dyadic_of two.Power };

    // No number but 0, 1 and -1 has a 64th power that fits 64 bits.
    fn apply(x: i64, y: i64) -> Result<i64, Fault> {
        if x == 1 {
            return Ok(1);
        }
        if x == -1 {
            return Ok(if y % 2 == 0 { 1 } else { -1 });
        }
        if y < 0 {
            return Err(Fault::Domain);
        }
        if x == 0 {
            return Ok(if y == 0 { 1 } else { 0 });
        }
        if y >= 64 {
            return Err(Fault::Limit);
        }
        tested_power(x, y as u32)
    }
}

impl InWide for Power {}

pub(crate) struct Factorial;

impl Scalar for Factorial {
    ghost meaning = { λ _ y. monadic_of one.Factorial y };

    fn apply(_x: i64, y: i64) -> Result<i64, Fault> {
        if y < 0 {
            Err(Fault::Domain)
        } else if y > 20 {
            Err(Fault::Limit)
        } else {
            Ok(listed_factorial(y as usize))
        }
    }
}

impl InWide for Factorial {}
