// Lanes from which values are widened.
ghost use Rattle.std.specs.Prelude.{◌≡◌, ◌+ℤ◌, ◌-ℤ◌, ◌*ℤ◌, ℤ, FitsSigned, Ok};
ghost use Rattle.apl_arrays.specs.Widths.{more_than_w32};
ghost use Rattle.apl_scalar.specs.Functions.{in_range};
ghost use Rattle.apl_scalar.specs.inside.Widths.{more_than_w8};

use crate::computed::Computed;

/// A lane narrower than another, which holds the sums, differences and products of its numbers.
pub(crate) trait Narrow: Computed {
    type Wider: Computed;

    /// The same number.
    fn widen(self) -> Self::Wider
        ensures { Self.Wider.value result ≡ Self.value self };

    fn wide_sum(x: Self, y: Self) -> Self::Wider
        ensures { in_range (Self.value x +ℤ Self.value y) ≡ Ok (Self.Wider.value result) };

    fn wide_difference(x: Self, y: Self) -> Self::Wider
        ensures { in_range (Self.value x -ℤ Self.value y) ≡ Ok (Self.Wider.value result) };

    fn wide_product(x: Self, y: Self) -> Self::Wider
        ensures { in_range (Self.value x *ℤ Self.value y) ≡ Ok (Self.Wider.value result) };

    ghost within: { (z : ℤ) → FitsSigned Self.width z → FitsSigned Self.Wider.width z };
}

impl Narrow for i8 {
    type Wider = i32;

    ghost within = { more_than_w8 };

    #[inline(always)]
    fn widen(self) -> i32 {
        i32::from(self)
    }

    #[inline(always)]
    fn wide_sum(x: i8, y: i8) -> i32 {
        i32::from(x) + i32::from(y)
    }

    #[inline(always)]
    fn wide_difference(x: i8, y: i8) -> i32 {
        i32::from(x) - i32::from(y)
    }

    #[inline(always)]
    fn wide_product(x: i8, y: i8) -> i32 {
        i32::from(x) * i32::from(y)
    }
}

impl Narrow for i32 {
    type Wider = i64;

    ghost within = { more_than_w32 };

    #[inline(always)]
    fn widen(self) -> i64 {
        i64::from(self)
    }

    #[inline(always)]
    fn wide_sum(x: i32, y: i32) -> i64 {
        i64::from(x) + i64::from(y)
    }

    #[inline(always)]
    fn wide_difference(x: i32, y: i32) -> i64 {
        i64::from(x) - i64::from(y)
    }

    #[inline(always)]
    fn wide_product(x: i32, y: i32) -> i64 {
        i64::from(x) * i64::from(y)
    }
}
