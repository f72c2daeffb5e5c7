// Bounds of numbers, from which it is known that no product of theirs leaves a type.
ghost use Rattle.std.specs.Prelude.{ℤ, List, IsTrue};
ghost use Rattle.apl_operators.specs.inside.SumsOfProducts.{AreWithin, FitTogether};

use apl_arrays::{Lane, holds, range_of};

/// No magnitude below this leaves 64 bits.
const EXACT: u64 = 0x8000_0000_0000_0000;

/// The largest magnitude.
pub(crate) fn largest<L: Lane>(items: &[L]) -> u64
    ensures { AreWithin result (L.numbers items.now) }
{
    let (least, greatest) = range_of(items);
    least.unsigned_abs().max(greatest.unsigned_abs())
}

/// Whether a type is known to hold the sum of so many products of numbers within two bounds, in whatever order they are added.
pub(crate) fn fit_together<M: Lane>(left: u64, right: u64, count: usize) -> bool
    ensures { IsTrue result → (xs ys : List ℤ) → AreWithin left xs → AreWithin right ys → FitTogether M.width xs ys count }
{
    let most = left.saturating_mul(right);
    let all = (count as u64).saturating_mul(most);
    if EXACT <= all {
        return false;
    }
    holds::<M>(0, all as i64)
}
