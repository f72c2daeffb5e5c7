// Structural functions: what is done to items whatever their type is.
ghost use Rattle.std.specs.Prelude.{◌≡◌, ℕ, List, length, IfOk};

use crate::cell::Ravel;
use crate::elements::Elements;
use crate::numbers::{NumberSlice, NumberVec};
use apl_charset::Ch;
use std::alloc::{AllocError, Global};

/// A structural function: it makes items of items, whatever their type is.
pub trait Structural {
    /// Whether it is one of so many items.
    ghost takes: { Self → ℕ → Type 0 };

    /// The items that it makes of these, of any type. The first item given stands for one beyond the list, the second is the fill.
    ghost makes: { (A : Type 0) → Self → A → A → List A → List A };

    /// The items that it makes of these, with this fill.
    fn make<T: Copy>(self, alloc: Global, items: &[T], fill: T) -> Result<Vec<T>, AllocError>
        requires { takes self (length items.now) }
        ensures { IfOk result (λ made. (d : T) → made.items ≡ makes T self d fill items.now) };
}

impl<'a> Elements<'a> {
    ghost use Rattle.apl_arrays.specs.Cells.{cells_of};
    ghost use Rattle.apl_arrays.specs.Left.{listed};
    ghost use Rattle.apl_arrays.specs.Ravels.{items_of};
    ghost use Rattle.apl_arrays.specs.Structural.{made_of};

    /// What a structural function makes of these elements, stored as they are. The fill is 0 or a blank.
    pub fn made_by<S: Structural>(self, alloc: Global, function: S) -> Result<Ravel, AllocError>
        requires { S.takes function (length (cells_of (listed self))) }
        ensures { IfOk result (λ ravel. items_of ravel ≡ made_of (λ A. S.makes A function) (listed self.entry)) }
    {
        match self {
            Elements::Nums(NumberSlice::I8(raw)) => {
                let made = function.make(alloc, raw, 0)?;
                Ok(Ravel::Nums(NumberVec::I8(made)))
            }
            Elements::Nums(NumberSlice::I32(raw)) => {
                let made = function.make(alloc, raw, 0)?;
                Ok(Ravel::Nums(NumberVec::I32(made)))
            }
            Elements::Nums(NumberSlice::I64(raw)) => {
                let made = function.make(alloc, raw, 0)?;
                Ok(Ravel::Nums(NumberVec::I64(made)))
            }
            Elements::Chars(raw) => {
                let made = function.make(alloc, raw, Ch::ascii(b' '))?;
                Ok(Ravel::Chars(made))
            }
        }
    }
}
