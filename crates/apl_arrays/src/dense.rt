// A shape and its elements, which arrays share.
ghost use Rattle.std.specs.Prelude.{◌≡◌, ◌<◌, ◌↔◌, ◌∷◌, [], cond, length, true, IsTrue};

use crate::cell::Ravel;
use crate::elements::Elements;
use crate::shape::MAX_RANK;
use arrayvec::ArrayVec;
use std::marker::Model;

/// A shape of one axis or more, and an element for each index list within it.
#[derive(Drop)]
pub(crate) struct Dense {
    shape: ArrayVec<usize, MAX_RANK>,
    ravel: Ravel,
}

impl Model for Dense {
    ghost use Rattle.apl_arrays.specs.Cells.{Arr};

    ghost Value = { Arr };

    ghost use Rattle.apl_arrays.specs.Dense.{IsDense};
    ghost use Rattle.apl_arrays.specs.Ravels.{items_of};

    ghost view = { λ a. record { shape = a.shape.items; items = items_of a.ravel } };

    ghost invariant = { λ a. IsDense a.shape.items (items_of a.ravel) };
}

impl Dense {
    ghost use Rattle.apl_arrays.specs.Cells.{cells_of};
    ghost use Rattle.apl_arrays.specs.Dense.{IsDense};
    ghost use Rattle.apl_arrays.specs.Kinds.{are_numbers};
    ghost use Rattle.apl_arrays.specs.Ravels.{items_of};
    ghost use Rattle.std.specs.List.{All};
    ghost use Rattle.apl_arrays.specs.Left.{listed};
    ghost use Rattle.apl_arrays.specs.Written.{elements_written, number_written, AreEnough};

    pub(crate) fn new(shape: ArrayVec<usize, MAX_RANK>, ravel: Ravel) -> Dense
        requires { IsDense shape.items (items_of ravel) }
        ensures { result ≡ record { shape = shape.items; items = items_of ravel } }
    {
        Dense { shape, ravel }
    }

    /// The lengths of the axes.
    #[inline]
    pub(crate) fn shape(&self) -> &[usize]
        ensures value { result.now ≡ self.now.shape }
        ensures dense { IsDense self.now.shape self.now.items }
    {
        self.shape.as_slice()
    }

    /// The elements in row-major order.
    #[inline]
    pub(crate) fn ravel(&self) -> &Ravel
        ensures value { items_of result.now ≡ self.now.items }
        ensures dense { IsDense self.now.shape self.now.items }
    {
        &self.ravel
    }

    /// Whether it is a vector of one number.
    #[inline]
    pub(crate) fn is_single_number(&self) -> bool
        ensures value { IsTrue result ↔ (self.now.shape ≡ 1 ∷ []) × (are_numbers self.now.items ≡ true) }
        ensures dense { IsDense self.now.shape self.now.items }
    {
        match &self.ravel {
            Ravel::Nums(_) => matches!(self.shape.as_slice(), [1]),
            Ravel::Chars(_) => false,
        }
    }

    /// Writes a number where there is one, and says whether it did.
    #[inline]
    pub(crate) fn set_number(&mut self, place: usize, number: i64) -> bool
        ensures value { self.new ≡ cond result (number_written self.old place number) self.old }
        ensures there { IsTrue result → (are_numbers self.old.items ≡ true) × (place < length (cells_of self.old.items)) }
    {
        match &mut self.ravel {
            Ravel::Nums(numbers) => numbers.set(place, number),
            Ravel::Chars(_) => false,
        }
    }

    /// Writes elements at places one after another, so that the last one for a place stands, and says whether it did. A single one serves at
    /// each place, and elements of another type are not written.
    pub(crate) fn write(&mut self, places: &[usize], items: Elements<'_>) -> bool
        requires within { All (λ q. q < length (cells_of self.old.items)) places.now }
        requires enough { AreEnough (length (cells_of (listed items))) (length places.now) }
        ensures { self.new ≡ cond result (elements_written self.old places.now (listed items.entry)) self.old }
    {
        let wrote = self.ravel.write_in_place(places, items);
        self.ravel.inspect();
        wrote
    }
}
