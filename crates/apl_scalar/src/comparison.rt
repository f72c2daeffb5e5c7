// Comparisons of numbers.
ghost use Rattle.std.specs.Prelude.{◌≡◌, ◌<◌, ℕ, ℤ, Bool, not, int_lt, int_le, length, pos, slice_index_or, Ok};
ghost use Rattle.apl_scalar.specs.Functions.{int_eq, number_of};

use crate::computed::Computed;
use crate::function::Scalar;
use crate::line::Line;
use crate::tells::Tells;
use apl_arrays::Lane;
use apl_faults::Fault;
use std::marker::PhantomData;

/// How many numbers are compared in one step, so that their verdicts fill a register.
const STEP: usize = 16;

/// A test of two numbers.
pub trait Comparison {
    /// The test of numbers without bounds.
    ghost meaning: { ℤ → ℤ → Bool };

    /// Whether it holds.
    fn holds(x: i64, y: i64) -> bool
        ensures { result ≡ meaning x y };
}

/// Whether a test holds, as 1 or 0.
pub struct Compared<C>(PhantomData<C>);

impl<C: Comparison> Scalar for Compared<C> {
    ghost meaning = { λ x y. Ok (number_of (C.meaning x y)) };

    #[inline(always)]
    fn apply(x: i64, y: i64) -> Result<i64, Fault> {
        Ok(if C::holds(x, y) { 1 } else { 0 })
    }
}

/// Whether a test of two numbers of a lane holds, as 1 or 0.
#[inline(always)]
fn verdict<L: Lane, C: Comparison>(x: L, y: L) -> i8
    ensures { result ≡ number_of (C.meaning (L.value x) (L.value y)) }
{
    if C::holds(x.wide(), y.wide()) { 1 } else { 0 }
}

/// The verdicts for the places of one step.
#[inline(always)]
fn step<L: Lane, C: Comparison, X: Line<L>, Y: Line<L>>(x: X, y: Y) -> [i8; STEP]
    requires x { (k : ℕ) → k < STEP → X.has x k }
    requires y { (k : ℕ) → k < STEP → Y.has y k }
    ensures { (k : ℕ) → k < STEP → slice_index_or result k (pos 0) ≡ number_of (C.meaning (X.number x k) (Y.number y k)) }
{
    let mut verdicts = [0i8; STEP];
    for i in 0..STEP {
        verdicts[i] = verdict::<L, C>(x.at(i), y.at(i));
    }
    verdicts
}

impl<C: Comparison> Tells for Compared<C> {
    #[inline(always)]
    fn told(x: i64, y: i64) -> Result<i8, Fault> {
        Ok(if C::holds(x, y) { 1 } else { 0 })
    }

    #[inline(always)]
    fn fill_told<L: Computed, X: Line<L>, Y: Line<L>>(x: X, y: Y, out: &mut [i8]) -> bool {
        let mut at = 0usize;
        while STEP <= out.len() - at {
            out[at..at + STEP].copy_from_slice(&step::<L, C, X, Y>(x.after(at), y.after(at)));
            at += STEP;
        }
        for i in at..out.len() {
            out[i] = verdict::<L, C>(x.at(i), y.at(i));
        }
        true
    }
}

/// Whether the first number is less.
pub struct Less;

impl Comparison for Less {
    ghost meaning = { int_lt };

    #[inline(always)]
    fn holds(x: i64, y: i64) -> bool {
        x < y
    }
}

/// Whether the first number is not greater.
pub struct NotGreater;

impl Comparison for NotGreater {
    ghost meaning = { int_le };

    #[inline(always)]
    fn holds(x: i64, y: i64) -> bool {
        x <= y
    }
}

/// Whether the numbers are the same.
pub struct Equal;

impl Comparison for Equal {
    ghost meaning = { int_eq };

    #[inline(always)]
    fn holds(x: i64, y: i64) -> bool {
        x == y
    }
}

/// Whether the numbers differ.
pub struct NotEqual;

impl Comparison for NotEqual {
    ghost meaning = { λ x y. not (int_eq x y) };

    #[inline(always)]
    fn holds(x: i64, y: i64) -> bool {
        x != y
    }
}

/// A test with its first number on the right and its second on the left.
pub struct Swapped<C>(PhantomData<C>);

impl<C: Comparison> Comparison for Swapped<C> {
    ghost meaning = { λ x y. C.meaning y x };

    #[inline(always)]
    fn holds(x: i64, y: i64) -> bool {
        C::holds(y, x)
    }
}
