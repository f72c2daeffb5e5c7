// Steps of folds from the right, of which a flag may say that the value is unknown.
ghost use Rattle.std.specs.Prelude.{◌≡◌, ◌^◌, ◌<◌, ◌≤ℤ◌, ◌∷◌, ℤ, List, Result, pos, Ok};
ghost use Rattle.std.proofs.Common.{arith};
ghost use Rattle.apl_faults.specs.declared.fault.Fault.{Fault};
ghost use Rattle.apl_scalar.specs.declared.function.Dyadic.TheVariants as two;
ghost use Rattle.apl_scalar.specs.Functions.{dyadic_of};
ghost use Rattle.apl_folds.specs.Lines.{fold_by};
ghost use Rattle.apl_folds.specs.inside.Sums.{magnitudes};

use crate::sums::add;
use apl_scalar::Scalar;
use std::marker::PhantomData;

/// A step of a fold from the right, which needs no branch.
pub(crate) trait Step {
    /// The function of numbers without bounds.
    ghost meaning: { ℤ → ℤ → Result ℤ Fault };

    /// What has to be true of the numbers that are folded.
    ghost room: { List ℤ → Type 0 };

    /// The fold of a number and of those after it, of which the fold is known, and a flag, which is not negative only if it is a value.
    fn step(number: i64, known: i64) -> (i64, i64)
        ensures { pos 0 ≤ℤ result.1 → (rest : List ℤ) → room (number ∷ rest) → fold_by meaning rest ≡ Ok known → fold_by meaning (number ∷ rest) ≡ Ok result.0 };

    /// It is true of the numbers after one.
    ghost shorter: { (x : ℤ) (xs : List ℤ) → room (x ∷ xs) → room xs };
}

/// A step by a scalar function, which is tested.
pub(crate) struct Tried<F>(PhantomData<F>);

impl<F: Scalar> Step for Tried<F> {
    ghost meaning = { F.meaning };

    ghost room = { λ _. Unit {0} };

    ghost shorter = { λ _ _ _. tt };

    #[inline(always)]
    fn step(number: i64, known: i64) -> (i64, i64) {
        F::tried(number, known)
    }
}

/// A step of a sum that has room, which needs no test.
pub(crate) struct Sure;

impl Step for Sure {
    ghost meaning = { dyadic_of two.Plus };

    ghost room = { λ xs. magnitudes xs < 2 ^ 63 };

    ghost shorter = { λ x xs h. omega arith };

    #[inline(always)]
    fn step(number: i64, known: i64) -> (i64, i64) {
        (add(number, known), 0)
    }
}
