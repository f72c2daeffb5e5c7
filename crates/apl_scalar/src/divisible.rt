// Division in the narrow types that store numbers. Bytes are divided bit by bit, by instructions that each serve sixteen of them.
ghost use Rattle.std.specs.Prelude.{◌≡◌, ◌≤ℤ◌, ◌<ℤ◌, ◌≤◌, ◌<◌, pos, neg_ℤ, Ok, ◌+◌, ◌*◌};
ghost use Rattle.apl_scalar.specs.Functions.{quotient, residue};

use crate::computed::Computed;
use crate::small_residues::{small_left, turned_back, turned_up};
use apl_arrays::Lane;

/// A quotient and what is left, with one more bit of the number that is divided.
#[inline(always)]
fn with_bit(quotient: u8, rest: u8, bit: u8, divisor: u8) -> (u8, u8)
    requires quotient { quotient < 128 }
    requires rest { rest < divisor }
    requires bit { bit < 2 }
    requires divisor { divisor ≤ 128 }
    ensures whole { result.0 * divisor + result.1 ≡ 2 * (quotient * divisor + rest) + bit }
    ensures rest { result.1 < divisor }
{
    let next = 2 * rest + bit;
    // The difference wraps where the divisor is greater.
    let less = next.min(next.wrapping_sub(divisor));
    (2 * quotient + (less != next) as u8, less)
}

/// The quotient of a number by a divisor, and what is left.
#[inline(always)]
fn divided(number: u8, divisor: u8) -> (u8, u8)
    requires { (0 < divisor) × (divisor ≤ 128) }
    ensures whole { result.0 * divisor + result.1 ≡ number }
    ensures rest { result.1 < divisor }
{
    let mut quotient = 0u8;
    let mut rest = 0u8;
    for place in 0..8u32 {
        let bit = (number >> (7 - place)) % 2;
        let (more, left) = with_bit(quotient, rest, bit, divisor);
        quotient = more;
        rest = left;
    }
    (quotient, rest)
}

/// A narrow lane in which numbers are divided. A flag is a number of the lane, which is negative where a division isn't tried or has no value.
pub(crate) trait Divisible: Computed {
    /// The exact quotient by a positive number and its flag.
    fn tried_quotient(x: Self, y: Self) -> (Self, Self)
        ensures { pos 0 ≤ℤ Self.value result.1 → quotient (Self.value x) (Self.value y) ≡ Ok (Self.value result.0) };

    /// What is left of `y` by a positive number and its flag.
    fn tried_residue(x: Self, y: Self) -> (Self, Self)
        ensures { pos 0 ≤ℤ Self.value result.1 → residue (Self.value x) (Self.value y) ≡ Self.value result.0 };
}

/// A divisor that is positive, also where it isn't that number.
#[inline(always)]
fn some_divisor(y: i8) -> u8
    ensures some { (0 < result) × (result ≤ 128) }
    ensures same { pos 0 <ℤ y → pos result ≡ y }
{
    if 0 < y { y as u8 } else { 1 }
}

/// A flag that is negative where a number isn't positive.
#[inline(always)]
fn none_below(y: i8) -> i8
    ensures { pos 0 ≤ℤ result → pos 0 <ℤ y }
{
    i8::either(y, y.wrapping_sub(1))
}

/// A flag that is negative where something is left.
#[inline(always)]
fn some_left(rest: u8) -> i8
    requires { rest < 128 }
    ensures { pos 0 ≤ℤ result → rest ≡ 0 }
{
    rest.cast_signed().wrapping_neg()
}

/// A magnitude with a number's sign.
#[inline(always)]
fn with_sign(x: i8, magnitude: u8) -> i8
    ensures up { pos 0 ≤ℤ x → magnitude < 128 → result ≡ pos magnitude }
    ensures down { x <ℤ pos 0 → magnitude ≤ 128 → result ≡ neg_ℤ (pos magnitude) }
{
    let value = magnitude.cast_signed();
    if x < 0 { value.wrapping_neg() } else { value }
}

impl Divisible for i8 {
    #[inline(always)]
    fn tried_quotient(x: i8, y: i8) -> (i8, i8) {
        let (quotient, rest) = divided(x.unsigned_abs(), some_divisor(y));
        (
            with_sign(x, quotient),
            i8::either(some_left(rest), none_below(y)),
        )
    }

    #[inline(always)]
    fn tried_residue(x: i8, y: i8) -> (i8, i8) {
        let divisor = some_divisor(x);
        let (_, rest) = divided(turned_up(y.wide()) as u8, divisor);
        let left = turned_back(y.wide(), u64::from(divisor), u64::from(rest));
        (i8::low(left), none_below(x))
    }
}

impl Divisible for i32 {
    #[inline(always)]
    fn tried_quotient(x: i32, y: i32) -> (i32, i32) {
        if 0 < y && x % y == 0 {
            (x / y, 0)
        } else {
            (0, -1)
        }
    }

    #[inline(always)]
    fn tried_residue(x: i32, y: i32) -> (i32, i32) {
        if 0 < x {
            (i32::low(small_left(x.wide(), y.wide())), 0)
        } else {
            (0, -1)
        }
    }
}
