// Scalar functions whose value is one of their arguments.
ghost use Rattle.std.specs.Prelude.{◌≡◌, Ok};
ghost use Rattle.std.proofs.Common.{ap, arith};
ghost use Rattle.std.proofs.lemmas.Int.{ints, clamps};
ghost use Rattle.apl_folds.specs.Chains.{IsAssociative};

use apl_arrays::Lane;
use apl_scalar::{Maximum, Minimum, Scalar};

/// A scalar function that chooses one of two numbers: so it gives numbers of the type that stores them.
pub(crate) trait Choice: Scalar {
    /// The one that it chooses.
    fn of<L: Lane>(x: L, y: L) -> L
        ensures { Self.meaning (L.value x) (L.value y) ≡ Ok (L.value result) };

    ghost associative: { IsAssociative Self.meaning };
}

impl Choice for Maximum {
    ghost associative = { λ x y z. ap (λ v. Ok v) (omega (arith, ints, clamps)) };

    #[inline(always)]
    fn of<L: Lane>(x: L, y: L) -> L {
        x.greater(y)
    }
}

impl Choice for Minimum {
    ghost associative = { λ x y z. ap (λ v. Ok v) (omega (arith, ints, clamps)) };

    #[inline(always)]
    fn of<L: Lane>(x: L, y: L) -> L {
        x.lesser(y)
    }
}
