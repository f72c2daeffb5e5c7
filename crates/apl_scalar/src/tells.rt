// Scalar functions whose values are truth values.
ghost use Rattle.std.specs.Prelude.{◌≡◌, ◌<◌, ℕ, length, IsTrue, IsFalse};
ghost use Rattle.apl_scalar.specs.Operands.{AreValues, SomeHasNone};

use crate::blocks::Kernel;
use crate::computed::Computed;
use crate::function::Scalar;
use crate::line::Line;
use crate::values::Tested;
use apl_faults::Fault;
use std::marker::PhantomData;

/// A scalar function whose values are 0 and 1, which are stored in bytes.
pub(crate) trait Tells: Scalar {
    /// Its value, or its fault.
    fn told(x: i64, y: i64) -> Result<i8, Fault>
        ensures { result ≡ Self.meaning x y };

    /// Writes the values for the places of a block, and says whether there is one at each. Where there is not, what it wrote means nothing.
    fn fill_told<L: Computed, X: Line<L>, Y: Line<L>>(x: X, y: Y, out: &mut [i8]) -> bool
        requires x { (k : ℕ) → k < length out.old → X.has x k }
        requires y { (k : ℕ) → k < length out.old → Y.has y k }
        ensures values { IsTrue result → AreValues Self.meaning (X.number x) (Y.number y) out.new }
        ensures none { IsFalse result → SomeHasNone Self.meaning (X.number x) (Y.number y) (length out.new) };
}

/// A function with its values in bytes.
pub(crate) struct Telling<F>(PhantomData<F>);

impl<L: Computed, F: Tells> Kernel<L, i8> for Telling<F> {
    ghost meaning = { F.meaning };

    #[inline(always)]
    fn fill<X: Line<L>, Y: Line<L>>(x: X, y: Y, out: &mut [i8]) -> bool {
        F::fill_told(x, y, out)
    }
}

impl<F: Tells> Tested<i8> for Telling<F> {
    ghost meaning = { F.meaning };

    #[inline(always)]
    fn tested(x: i64, y: i64) -> Result<i8, Fault> {
        F::told(x, y)
    }
}
