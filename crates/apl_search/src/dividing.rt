// Digits of single numbers, and what a base leaves of a number.
ghost use Rattle.std.specs.Prelude.{◌≡◌, ◌<ℤ◌, neg_ℤ, pos};
ghost use Rattle.std.specs.Int.{int_div_euclid};
ghost use Rattle.apl_scalar.specs.Functions.{residue};
ghost use Rattle.apl_search.specs.Encoded.{left_of, IsNear};

/// The number of the other sign.
#[inline(always)]
fn opposite(number: i128) -> i128
    requires { IsNear number }
    ensures value { result ≡ neg_ℤ number }
    ensures near { IsNear result }
{
    -number
}

/// How often a positive base goes into a number, rounded down.
///
/// Nearly all numbers fit 64 bits, and to divide in these takes far less time than in 128.
#[inline(always)]
fn quotient(number: i128, base: i128) -> i128
    requires { pos 0 <ℤ base }
    ensures { result ≡ int_div_euclid number base }
{
    if let Ok(number) = i64::try_from(number) {
        if let Ok(base) = i64::try_from(base) {
            return number.div_euclid(base) as i128;
        }
    }
    number.div_euclid(base)
}

/// What a base leaves of a number less its digit.
#[inline(always)]
fn left(base: i128, number: i128) -> i128
    requires base { IsNear base }
    requires number { IsNear number }
    ensures value { result ≡ left_of base number }
    ensures near { IsNear result }
{
    if base == 0 {
        return 0;
    }
    if base > 0 {
        quotient(number, base)
    } else {
        let turned = opposite(number);
        let up = opposite(base);
        quotient(turned, up)
    }
}

/// The digit of a number by a base that leaves the rest of it.
#[inline(always)]
fn digit(base: i128, number: i128, rest: i128) -> i128
    requires base { IsNear base }
    requires number { IsNear number }
    requires rest { IsNear rest }
    requires left { rest ≡ left_of base number }
    ensures { result ≡ residue base number }
{
    let product = base * rest;
    number - product
}

/// The digit of a number by a base, and what the base leaves of it.
#[inline(always)]
pub(crate) fn divided(base: i128, number: i128) -> (i128, i128)
    requires base { IsNear base }
    requires number { IsNear number }
    ensures digit { result.0 ≡ residue base number }
    ensures rest { result.1 ≡ left_of base number }
    ensures near { IsNear result.1 }
{
    let rest = left(base, number);
    (digit(base, number, rest), rest)
}
