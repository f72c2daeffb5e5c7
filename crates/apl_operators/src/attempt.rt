// Scalar functions whose values are sought first on a fast path.
ghost use Rattle.std.specs.Prelude.{◌≡◌, ◌↔◌, ◌≤ℤ◌, ℤ, Result, pos, Ok, IsOk};
ghost use Rattle.apl_faults.specs.declared.fault.Fault.{Fault};

use apl_faults::Fault;
use apl_scalar::Scalar;
use std::marker::PhantomData;

/// A scalar function with an attempt at its value that costs little, and may miss it.
pub(crate) trait Attempt {
    /// The function of numbers without bounds.
    ghost meaning: { ℤ → ℤ → Result ℤ Fault };

    /// The numbers of which the attempt finds the value.
    ghost finds: { ℤ → ℤ → Type 0 };

    /// Its value, or its fault.
    fn apply(x: i64, y: i64) -> Result<i64, Fault>
        ensures { result ≡ meaning x y };

    /// A number and a flag, which is negative exactly where the value is not found. Else the number is the value.
    fn attempt(x: i64, y: i64) -> (i64, i64)
        ensures value { pos 0 ≤ℤ result.1 → meaning x y ≡ Ok result.0 }
        ensures found { pos 0 ≤ℤ result.1 ↔ finds x y };
}

/// A scalar function with an attempt that misses no value.
pub(crate) struct Sure<F>(PhantomData<F>);

impl<F: Scalar> Attempt for Sure<F> {
    ghost meaning = { F.meaning };

    ghost finds = { λ x y. IsOk (F.meaning x y) };

    #[inline(always)]
    fn apply(x: i64, y: i64) -> Result<i64, Fault> {
        F::apply(x, y)
    }

    #[inline(always)]
    fn attempt(x: i64, y: i64) -> (i64, i64) {
        F::tried(x, y)
    }
}
