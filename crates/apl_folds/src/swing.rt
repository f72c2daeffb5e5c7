// Folds by addition and by subtraction, each from the one before it.
ghost use Rattle.std.specs.Prelude.{◌≡◌, ◌+ℤ◌, FitsSigned, false};
ghost use Rattle.std.specs.Int.{w64};
ghost use Rattle.apl_scalar.specs.declared.function.Dyadic.TheVariants as two;
ghost use Rattle.apl_scalar.specs.Functions.{dyadic_of};
ghost use Rattle.apl_folds.specs.inside.Reach.{signed, IsSwing, IsWithin};

use crate::kept::Kept;
use apl_scalar::{Difference, Sum};

/// The fold of some numbers, whether the next one is taken off it, and the least and the greatest that may come next: with any other a sum on
/// the way overflows 64 bits, and the fold is a limit fault.
#[derive(Clone, Copy)]
pub(crate) struct Swing {
    fold: i64,
    less: bool,
    least: i64,
    greatest: i64,
}

/// A fold with a number more, or less it.
#[inline(always)]
fn with(fold: i64, less: bool, number: i64) -> i64
    ensures { FitsSigned w64 (fold +ℤ signed less number) → result ≡ fold +ℤ signed less number }
{
    if less {
        fold.wrapping_sub(number)
    } else {
        fold.wrapping_add(number)
    }
}

impl Kept<Sum> for Swing {
    ghost knows = { λ s xs. (s.less ≡ false) × IsSwing (dyadic_of two.Plus) s xs };

    ghost tells = { IsWithin };

    #[inline(always)]
    fn none() -> Swing {
        Swing {
            fold: 0,
            less: false,
            least: i64::MIN,
            greatest: i64::MAX,
        }
    }

    #[inline(always)]
    fn told(self, number: i64) -> Option<i64> {
        if number < self.least || self.greatest < number {
            return None;
        }
        Some(with(self.fold, self.less, number))
    }

    #[inline(always)]
    fn next(self, number: i64, fold: i64) -> Swing {
        Swing {
            fold,
            less: self.less,
            least: self.least.saturating_sub(number),
            greatest: self.greatest.saturating_sub(number),
        }
    }
}

impl Kept<Difference> for Swing {
    ghost knows = { IsSwing (dyadic_of two.Minus) };

    ghost tells = { IsWithin };

    #[inline(always)]
    fn none() -> Swing {
        <Swing as Kept<Sum>>::none()
    }

    #[inline(always)]
    fn told(self, number: i64) -> Option<i64> {
        if number < self.least || self.greatest < number {
            return None;
        }
        Some(with(self.fold, self.less, number))
    }

    #[inline(always)]
    fn next(self, number: i64, fold: i64) -> Swing {
        Swing {
            fold,
            less: !self.less,
            least: number.saturating_sub(self.greatest),
            greatest: number.saturating_sub(self.least),
        }
    }
}
