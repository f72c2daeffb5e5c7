// An array, and what is read and written of it.
ghost use Rattle.std.specs.Prelude.{◌≡◌, ◌≤◌, ◌<◌, length, [], ◌∷◌, IfOk, IsOk, IsTrue, map, cond, true};

use crate::cell::Cell;
use crate::dense::Dense;
use crate::elements::Elements;
use crate::numbers::NumberSlice;
use crate::shape::{MAX_ELEMENTS, MAX_RANK, place_of};
use apl_charset::Ch;
use std::alloc::AllocError;
use std::marker::Model;
use std::rc::Rc;

/// How an array is stored: a scalar, or a vector of at most one number, in place; any other where its copies find it too.
#[derive(Drop)]
pub(crate) enum Kept {
    Num(i64),
    Char(Ch),
    /// The vector of no number.
    Empty,
    /// The vector of this number.
    Single(i64),
    Dense(Rc<Dense>),
}

/// Becomes a number instead of something else, which is let go. It stands apart, since there mostly is a number.
#[inline(never)]
fn become_number(kept: &mut Kept, number: i64)
    ensures { kept.new ≡ Kept.Num number }
{
    *kept = Kept::Num(number);
}

/// A shape, and an element for each index list within it. It is small: what has many elements lies elsewhere, and its copies share it.
pub struct Array {
    kept: Kept,
}

// Written out, so that no crate above proves again what it does.
impl Drop for Array {
    fn drop(self) {
        let Array { kept } = self;
        drop(kept);
    }
}

impl Model for Array {
    ghost use Rattle.apl_arrays.specs.Cells.{Arr};

    ghost Value = { Arr };

    ghost use Rattle.apl_arrays.specs.Kept.{arr_of};

    ghost view = { λ a. arr_of a.kept };
}

impl Array {
    ghost use Rattle.apl_arrays.specs.Cells.{cells_of, cell_at, IsArray, Numbers};
    ghost use Rattle.apl_arrays.specs.Index.{size_of, indices};
    ghost use Rattle.apl_arrays.specs.Kept.{arr_of};
    ghost use Rattle.apl_arrays.specs.Kinds.{are_numbers};
    ghost use Rattle.apl_arrays.specs.Left.{listed, cells_left};
    ghost use Rattle.apl_arrays.specs.Simple.{number_of_scalar};
    ghost use Rattle.std.specs.List.{All};
    ghost use Rattle.apl_arrays.specs.Written.{elements_written, number_written, AreEnough};

    /// The array that is stored so.
    #[inline]
    pub(crate) fn kept(kept: Kept) -> Array
        ensures { result ≡ arr_of kept }
    {
        Array { kept }
    }

    /// The number that a scalar is; none where it is a character or an array of another rank.
    #[inline]
    pub fn as_number(&self) -> Option<i64>
        ensures { result ≡ number_of_scalar self.now }
    {
        match &self.kept {
            Kept::Num(number) => Some(*number),
            Kept::Char(_) | Kept::Empty | Kept::Single(_) => None,
            // What is stored so has axes, and is no scalar.
            Kept::Dense(dense) => {
                let _axes = dense.shape();
                None
            }
        }
    }

    /// The lengths of the axes.
    #[inline]
    pub fn shape(&self) -> &[usize]
        ensures value { result.now ≡ self.now.shape }
        ensures array { IsArray self.now.shape self.now.items }
    {
        match &self.kept {
            Kept::Num(number) => {
                // Read, since a number that is read is one of 64 bits.
                let _number = *number;
                &[]
            }
            Kept::Char(character) => {
                // A character that is read is in the set.
                let _code = character.code();
                &[]
            }
            Kept::Empty => &[0],
            Kept::Single(number) => {
                // Read, since a number that is read is one of 64 bits.
                let _number = *number;
                &[1]
            }
            Kept::Dense(dense) => dense.shape(),
        }
    }

    /// How many axes there are.
    #[inline]
    pub fn rank(&self) -> usize
        ensures value { result ≡ length self.now.shape }
        ensures few { result ≤ MAX_RANK }
    {
        self.shape().len()
    }

    /// The elements where they lie.
    #[inline]
    fn elements(&self) -> Elements<'_>
        ensures value { listed result ≡ self.now.items }
        ensures array { IsArray self.now.shape self.now.items }
        ensures full { length (cells_of self.now.items) ≡ size_of self.now.shape }
        ensures small { length (cells_of self.now.items) ≤ MAX_ELEMENTS }
    {
        match &self.kept {
            Kept::Num(number) | Kept::Single(number) => {
                // Read, since a number that is read is one of 64 bits.
                let _number = *number;
                Elements::Nums(NumberSlice::I64(std::slice::from_ref(number)))
            }
            Kept::Char(character) => {
                // A character that is read is in the set.
                let _code = character.code();
                Elements::Chars(std::slice::from_ref(character))
            }
            Kept::Empty => Elements::Nums(NumberSlice::I8(&[])),
            Kept::Dense(dense) => Elements::new(dense.ravel()),
        }
    }

    /// The elements where they lie, in row-major order.
    #[inline]
    pub fn items(&self) -> Elements<'_>
        ensures value { listed result ≡ self.now.items }
        ensures array { IsArray self.now.shape self.now.items }
        ensures full { length (cells_of self.now.items) ≡ size_of self.now.shape }
        ensures small { length (cells_of self.now.items) ≤ MAX_ELEMENTS }
        // Row-major order is the lexicographic order of the index lists.
        ensures in_order { map (cell_at self.now) (indices self.now.shape) ≡ map Some (cells_of self.now.items) }
    {
        self.elements()
    }

    /// The elements in row-major order, one after another.
    #[inline]
    pub fn iter(&self) -> Elements<'_>
        ensures value { cells_left result ≡ cells_of self.now.items }
        ensures kind { listed result ≡ self.now.items }
    {
        self.items()
    }

    /// The element at an index list, which is one just within the shape.
    pub fn at(&self, index: &[usize]) -> Option<Cell>
        ensures { result ≡ cell_at self.now index.now }
    {
        match place_of(self.shape(), index) {
            Some(place) => self.elements().cell(place),
            None => None,
        }
    }

    /// An equal array, which shares the elements. A scalar is always copied.
    #[inline]
    pub fn copy(&self) -> Result<Array, AllocError>
        ensures value { IfOk result (λ copied. copied ≡ self.now) }
        ensures scalar { self.now.shape ≡ [] → IsOk result }
    {
        let kept = match &self.kept {
            Kept::Num(number) => Kept::Num(*number),
            Kept::Char(character) => Kept::Char(*character),
            Kept::Empty => Kept::Empty,
            Kept::Single(number) => Kept::Single(*number),
            Kept::Dense(dense) => {
                // What is stored so has axes, and is no scalar.
                let _axes = dense.shape();
                Kept::Dense(dense.clone()?)
            }
        };
        Ok(Array { kept })
    }

    /// Becomes a number, as a scalar. It takes no memory, and a number is written over another in place.
    #[inline(always)]
    pub fn put_number(&mut self, number: i64)
        ensures { self.new ≡ record { shape = []; items = Numbers (number ∷ []) } }
    {
        match &mut self.kept {
            Kept::Num(kept) => *kept = number,
            kept => become_number(kept, number),
        }
    }

    /// Writes a number over another, and says whether it did. It did not where there is no number at the place. In a scalar and in a vector of
    /// one number it did where there is one. It takes no memory.
    // Nor did it where a copy shares the elements of another array, nor where the number doesn't fit the type that stores the others. That
    // isn't in the model, so no clause can say when it did.
    pub fn set_number(&mut self, place: usize, number: i64) -> bool
        ensures value { self.new ≡ cond result (number_written self.old place number) self.old }
        ensures there { IsTrue result → (are_numbers self.old.items ≡ true) × (place < length (cells_of self.old.items)) }
        ensures scalar { self.old.shape ≡ [] → are_numbers self.old.items ≡ true → place ≡ 0 → IsTrue result }
        ensures single { self.old.shape ≡ 1 ∷ [] → are_numbers self.old.items ≡ true → place ≡ 0 → IsTrue result }
    {
        match &mut self.kept {
            Kept::Num(kept) if place == 0 => {
                *kept = number;
                true
            }
            Kept::Single(kept) if place == 0 => {
                *kept = number;
                true
            }
            // A copy may share the elements, and still has them.
            Kept::Dense(dense) if place == 0 && dense.is_single_number() => {
                self.kept = Kept::Single(number);
                true
            }
            Kept::Dense(dense) => {
                // What is stored so has axes, and is no scalar.
                let _axes = dense.shape();
                match Rc::get_mut(dense) {
                    Some(dense) => dense.set_number(place, number),
                    None => false,
                }
            }
            _ => false,
        }
    }

    /// Writes elements at places one after another, so that the last one for a place stands, and says whether it did. A single one serves at
    /// each place, and elements of another type are not written.
    // It did not where a copy shares the elements, nor where they are stored in place, nor where they are stored in a type that doesn't hold
    // all new ones. That isn't in the model, so no clause can say it.
    pub fn write(&mut self, places: &[usize], items: Elements<'_>) -> bool
        requires within { All (λ q. q < length (cells_of self.old.items)) places.now }
        requires enough { AreEnough (length (cells_of (listed items))) (length places.now) }
        ensures { self.new ≡ cond result (elements_written self.old places.now (listed items.entry)) self.old }
    {
        let Kept::Dense(dense) = &mut self.kept else {
            return false;
        };
        match Rc::get_mut(dense) {
            Some(dense) => dense.write(places, items),
            None => false,
        }
    }
}
