// The types that numbers are stored in.
ghost use Rattle.std.specs.Prelude.{◌≡◌, ℤ, List, map, int_lt, IfSome, IsSome, FitsSigned, ◌↔◌};
ghost use Rattle.std.specs.Int.{w8, w32, w64, int_max, int_min, Width};
ghost use Rattle.std.specs.Ordering.{int_eq};
ghost use Rattle.apl_arrays.specs.Numbers.{values, kept_values};
ghost use Rattle.apl_arrays.specs.Widths.{more_than_w8, more_than_w32};
ghost use Rattle.std.proofs.Common.{sym};
ghost use Rattle.std.proofs.lemmas.List.{map-id};

use crate::numbers::{NumberSlice, NumberVec};

/// A type that numbers are stored in: `i8`, `i32` or `i64`.
///
/// A kernel that is generic in a lane `L` speaks of `L.numbers xs.now` for the numbers of a slice `xs`, and of `L.value x` for that of an item.
/// At `i8`, `i32` and `i64` these are `xs.now` and `x` themselves, so a call at one of them needs no lemma.
/// In its own proof the law `g.met.L.Lane.each xs : L.numbers xs ≡ map L.value xs` makes them a map.
pub trait Lane: Copy {
    /// The number that an item is.
    ghost value: { Self → ℤ };

    /// The numbers that items are.
    ghost numbers: { List Self → List ℤ };

    /// How many bits an item has.
    ghost width: { Width };

    /// The number.
    fn wide(self) -> i64
        ensures value { result ≡ value self }
        ensures fits { FitsSigned width (value self) };

    /// A number in this type; none exactly where it doesn't fit.
    fn cut(number: i64) -> Option<Self>
        ensures value { IfSome result (λ cut. value cut ≡ number) }
        ensures fits { IsSome result ↔ FitsSigned width number };

    /// The low bits of a number, which are the number where it fits.
    fn low(number: i64) -> Self
        ensures { FitsSigned width number → value result ≡ number };

    /// Whether both are the same number.
    fn equals(self, other: Self) -> bool
        ensures { result ≡ int_eq (value self) (value other) };

    /// Whether it is less than the other.
    fn is_less(self, other: Self) -> bool
        ensures { result ≡ int_lt (value self) (value other) };

    /// The lesser of both.
    fn lesser(self, other: Self) -> Self
        ensures { value result ≡ int_min (value self) (value other) };

    /// The greater of both.
    fn greater(self, other: Self) -> Self
        ensures { value result ≡ int_max (value self) (value other) };

    /// Numbers where they lie.
    fn slice(items: &[Self]) -> NumberSlice<'_>
        ensures { values result ≡ numbers items.now };

    /// Numbers to keep.
    fn kept(items: Vec<Self>) -> NumberVec
        ensures { kept_values result ≡ numbers items.items };

    ghost each: { (xs : List Self) → numbers xs ≡ map value xs };

    ghost bounded: { (z : ℤ) → FitsSigned width z → FitsSigned w64 z };
}

impl Lane for i8 {
    ghost value = { λ x. x };

    ghost numbers = { λ xs. xs };

    ghost width = { w8 };

    ghost each = { λ xs. sym (map-id xs) };

    ghost bounded = { more_than_w8 };

    #[inline(always)]
    fn wide(self) -> i64 {
        i64::from(self)
    }

    #[inline(always)]
    fn cut(number: i64) -> Option<i8> {
        i8::try_from(number).ok()
    }

    #[inline(always)]
    fn low(number: i64) -> i8 {
        ((number.cast_unsigned() & 0xFF) as u8).cast_signed()
    }

    #[inline(always)]
    fn equals(self, other: i8) -> bool {
        self == other
    }

    #[inline(always)]
    fn is_less(self, other: i8) -> bool {
        self < other
    }

    #[inline(always)]
    fn lesser(self, other: i8) -> i8 {
        self.min(other)
    }

    #[inline(always)]
    fn greater(self, other: i8) -> i8 {
        self.max(other)
    }

    #[inline(always)]
    fn slice(items: &[i8]) -> NumberSlice<'_> {
        NumberSlice::I8(items)
    }

    #[inline(always)]
    fn kept(items: Vec<i8>) -> NumberVec
        ensures { kept_values result ≡ items.items }
    {
        NumberVec::I8(items)
    }
}

impl Lane for i32 {
    ghost value = { λ x. x };

    ghost numbers = { λ xs. xs };

    ghost width = { w32 };

    ghost each = { λ xs. sym (map-id xs) };

    ghost bounded = { more_than_w32 };

    #[inline(always)]
    fn wide(self) -> i64 {
        i64::from(self)
    }

    #[inline(always)]
    fn cut(number: i64) -> Option<i32> {
        i32::try_from(number).ok()
    }

    #[inline(always)]
    fn low(number: i64) -> i32 {
        ((number.cast_unsigned() & 0xFFFF_FFFF) as u32).cast_signed()
    }

    #[inline(always)]
    fn equals(self, other: i32) -> bool {
        self == other
    }

    #[inline(always)]
    fn is_less(self, other: i32) -> bool {
        self < other
    }

    #[inline(always)]
    fn lesser(self, other: i32) -> i32 {
        self.min(other)
    }

    #[inline(always)]
    fn greater(self, other: i32) -> i32 {
        self.max(other)
    }

    #[inline(always)]
    fn slice(items: &[i32]) -> NumberSlice<'_> {
        NumberSlice::I32(items)
    }

    #[inline(always)]
    fn kept(items: Vec<i32>) -> NumberVec
        ensures { kept_values result ≡ items.items }
    {
        NumberVec::I32(items)
    }
}

impl Lane for i64 {
    ghost value = { λ x. x };

    ghost numbers = { λ xs. xs };

    ghost width = { w64 };

    ghost each = { λ xs. sym (map-id xs) };

    ghost bounded = { λ z h. h };

    #[inline(always)]
    fn wide(self) -> i64 {
        self
    }

    #[inline(always)]
    fn cut(number: i64) -> Option<i64> {
        Some(number)
    }

    #[inline(always)]
    fn low(number: i64) -> i64 {
        number
    }

    #[inline(always)]
    fn equals(self, other: i64) -> bool {
        self == other
    }

    #[inline(always)]
    fn is_less(self, other: i64) -> bool {
        self < other
    }

    #[inline(always)]
    fn lesser(self, other: i64) -> i64 {
        self.min(other)
    }

    #[inline(always)]
    fn greater(self, other: i64) -> i64 {
        self.max(other)
    }

    #[inline(always)]
    fn slice(items: &[i64]) -> NumberSlice<'_> {
        NumberSlice::I64(items)
    }

    #[inline(always)]
    fn kept(items: Vec<i64>) -> NumberVec
        ensures { kept_values result ≡ items.items }
    {
        NumberVec::I64(items)
    }
}
