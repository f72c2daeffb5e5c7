// Scalar functions that are computed with numbers of 64 bits.
ghost use Rattle.std.specs.Prelude.{◌≡◌, ◌≤ℤ◌, ◌<◌, ℕ, length, pos, IsTrue, IsFalse};
ghost use Rattle.apl_scalar.specs.Operands.{AreValues, SomeHasNone};

use crate::blocks::Kernel;
use crate::function::Scalar;
use crate::line::Line;
use crate::overflow::either;
use std::marker::PhantomData;

/// A scalar function that is computed with numbers of 64 bits, and whose values are such.
pub(crate) trait InWide: Scalar {
    /// Writes the values for the places of a block, and says whether there is one at each, by one test of the flags of all. Where there is not,
    /// what it wrote means nothing.
    #[inline(always)]
    fn fill_tried<X: Line<i64>, Y: Line<i64>>(x: X, y: Y, out: &mut [i64]) -> bool
        requires x { (k : ℕ) → k < length out.old → X.has x k }
        requires y { (k : ℕ) → k < length out.old → Y.has y k }
        ensures values { IsTrue result → AreValues Self.meaning (X.number x) (Y.number y) out.new }
        ensures none { IsFalse result → SomeHasNone Self.meaning (X.number x) (Y.number y) (length out.new) }
    {
        let mut flags = 0i64;
        for i in 0..out.len() {
            let (value, flag) = Self::tried(x.at(i), y.at(i));
            out[i] = value;
            flags = either(flags, flag);
        }
        0 <= flags
    }

    /// The same, first on a fast path that numbers often allow, where there is one.
    #[inline(always)]
    fn fill<X: Line<i64>, Y: Line<i64>>(x: X, y: Y, out: &mut [i64]) -> bool
        requires x { (k : ℕ) → k < length out.old → X.has x k }
        requires y { (k : ℕ) → k < length out.old → Y.has y k }
        ensures values { IsTrue result → AreValues Self.meaning (X.number x) (Y.number y) out.new }
        ensures none { IsFalse result → SomeHasNone Self.meaning (X.number x) (Y.number y) (length out.new) }
    {
        Self::fill_tried(x, y, out)
    }
}

/// A function of numbers of 64 bits with such values.
pub(crate) struct Throughout<F>(PhantomData<F>);

impl<F: InWide> Kernel<i64, i64> for Throughout<F> {
    ghost meaning = { F.meaning };

    #[inline(always)]
    fn fill<X: Line<i64>, Y: Line<i64>>(x: X, y: Y, out: &mut [i64]) -> bool {
        F::fill(x, y, out)
    }
}
