// The elements of an array, one after another.
ghost use Rattle.std.specs.Prelude.{◌≡◌, ◌==◌, length, slice_get, IfOk};

use crate::cell::{Cell, Ravel};
use crate::numbers::NumberSlice;
use apl_charset::Ch;
use std::alloc::{AllocError, Global};

/// The elements of an array in row-major order, all numbers or all characters, also where there are none. As an iterator it gives them one
/// after another, and is then what is left.
#[derive(Clone, Copy, Debug, PartialEq, Eq)]
pub enum Elements<'a> {
    Nums(NumberSlice<'a>),
    Chars(&'a [Ch]),
}

impl<'a> Elements<'a> {
    ghost use Rattle.apl_arrays.specs.Cells.{cells_of};
    ghost use Rattle.apl_arrays.specs.Kinds.{are_numbers};
    ghost use Rattle.apl_arrays.specs.Ravels.{items_of};
    ghost use Rattle.apl_arrays.specs.Left.{listed};

    /// All elements of a ravel.
    #[inline]
    pub fn new(ravel: &'a Ravel) -> Elements<'a>
        ensures { listed result ≡ items_of ravel.now }
    {
        match ravel {
            Ravel::Nums(numbers) => Elements::Nums(numbers.as_slice()),
            Ravel::Chars(characters) => Elements::Chars(characters.as_slice()),
        }
    }

    /// How many elements there are.
    #[inline]
    pub fn len(self) -> usize
        ensures { result ≡ length (cells_of (listed self.entry)) }
    {
        match self {
            Elements::Nums(numbers) => numbers.len(),
            Elements::Chars(characters) => characters.len(),
        }
    }

    /// Whether there is no element.
    #[inline]
    pub fn is_empty(self) -> bool
        ensures { result ≡ (length (cells_of (listed self.entry)) == 0) }
    {
        self.len() == 0
    }

    /// Whether the elements are numbers, also where there are none.
    #[inline]
    pub fn is_numeric(self) -> bool
        ensures { result ≡ are_numbers (listed self.entry) }
    {
        matches!(self, Elements::Nums(_))
    }

    /// The element at a place, from 0; none where there are not so many.
    #[inline]
    pub fn cell(self, place: usize) -> Option<Cell>
        ensures { result ≡ slice_get (cells_of (listed self.entry)) place }
    {
        match self {
            Elements::Nums(numbers) => numbers.get(place).map(Cell::Num),
            Elements::Chars(characters) => characters.get(place).map(|x| Cell::Char(*x)),
        }
    }

    /// The same elements again.
    pub fn to_ravel(self, alloc: Global) -> Result<Ravel, AllocError>
        ensures { IfOk result (λ ravel. items_of ravel ≡ listed self.entry) }
    {
        match self {
            Elements::Nums(numbers) => Ok(Ravel::Nums(numbers.to_vec(alloc)?)),
            Elements::Chars(characters) => Ok(Ravel::Chars(Vec::from_slice(alloc, characters)?)),
        }
    }
}

impl<'a> Iterator for Elements<'a> {
    type Item = Cell;

    ghost use Rattle.std.specs.Iterator.{YieldsFirst, item_count};
    ghost use Rattle.apl_arrays.specs.Left.{cells_left};

    ghost next_gives = { YieldsFirst cells_left };

    ghost remaining = { item_count cells_left };

    fn next(&mut self) -> Option<Cell> {
        match self {
            Elements::Nums(numbers) => Some(Cell::Num(numbers.next()?)),
            Elements::Chars(characters) => {
                let (first, rest) = characters.split_first()?;
                *characters = rest;
                Some(Cell::Char(*first))
            }
        }
    }
}
