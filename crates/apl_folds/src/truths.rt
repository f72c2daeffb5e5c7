// Folds of rows of truth values.
ghost use Rattle.std.specs.Prelude.{◌≡◌, ◌<◌, length, Ok};
ghost use Rattle.apl_scalar.specs.Functions.{logical};
ghost use Rattle.apl_scalar.specs.Operands.{IsTruth};
ghost use Rattle.apl_folds.specs.Lines.{fold_by};

use crate::fold::fold_right;
use apl_arrays::Lane;
use apl_faults::Fault;
use apl_scalar::{Connective, Logical, either};

/// A number that is below 2 only where the argument is 0 or 1.
#[inline(always)]
fn spread(number: i64) -> u64
    ensures { result < 2 → IsTruth number }
{
    number.cast_unsigned()
}

/// Both numbers in one, which is 0 or 1 only where both are.
#[inline(always)]
fn both<L: Lane>(x: L, y: L) -> L
    ensures { IsTruth (L.value result) → IsTruth (L.value x) × IsTruth (L.value y) }
{
    L::low(either(x.wide(), y.wide()))
}

/// The value of two truth values.
#[inline(always)]
fn connected<C: Connective, L: Lane>(x: L, y: L) -> L
    ensures { IsTruth (L.value x) → IsTruth (L.value y) → logical C.meaning (L.value x) (L.value y) ≡ Ok (L.value result) }
{
    L::low(C::bits(x.wide(), y.wide()))
}

/// The fold of one or more numbers from the right, if the second result, by being below 2, says that all are 0 or 1.
fn fold_truths<C: Connective, L: Lane>(numbers: &[L]) -> (i64, u64)
    requires { 0 < length numbers.now }
    ensures { result.1 < 2 → fold_by (logical C.meaning) (L.numbers numbers.now) ≡ Ok result.0 }
{
    let last = numbers.len() - 1;
    let mut all = numbers[last];
    let mut bound = all;
    for k in (0..last).rev() {
        let number = numbers[k];
        all = connected::<C, L>(number, all);
        bound = both(bound, number);
    }
    (all.wide(), spread(bound.wide()))
}

/// The same as [`fold_right`] by a connective, and faster where all numbers are 0 or 1: their steps need no test.
pub(crate) fn fold_connected<C: Connective, L: Lane>(numbers: &[L]) -> Result<i64, Fault>
    requires { 0 < length numbers.now }
    ensures { result ≡ fold_by (logical C.meaning) (L.numbers numbers.now) }
{
    let (all, bound) = fold_truths::<C, L>(numbers);
    if bound < 2 {
        Ok(all)
    } else {
        fold_right::<Logical<C>, L>(numbers)
    }
}
