// Arrays that are made of what they have.
ghost use Rattle.std.specs.Prelude.{◌≡◌, ◌≤◌, length, [], ◌∷◌, IfOk, IsOk};
ghost use Rattle.apl_arrays.specs.Answers.{Answers, FaultsFirst};
ghost use Rattle.apl_arrays.specs.Cells.{cells_of, IsArray, Numbers, Characters};
ghost use Rattle.apl_arrays.specs.Checks.{is_bounded, limited};
ghost use Rattle.apl_arrays.specs.Index.{size_of, bound_of};
ghost use Rattle.apl_arrays.specs.Ravels.{items_of};
ghost use Rattle.apl_arrays.specs.Results.{ok_map};
ghost use Rattle.apl_arrays.specs.Simple.{simple, single, vector, at_most_one};

use crate::array::{Array, Kept};
use crate::cell::{Cell, Ravel};
use crate::dense::Dense;
use crate::shape::{MAX_ELEMENTS, MAX_RANK, is_in_bounds, lengths};
use crate::stop::Stop;
use apl_charset::Ch;
use apl_faults::Fault;
use arrayvec::ArrayVec;
use std::alloc::{AllocError, Global};
use std::rc::Rc;

impl Array {
    /// A number, as a scalar.
    #[inline]
    pub fn number(number: i64) -> Array
        ensures { result ≡ record { shape = []; items = Numbers (number ∷ []) } }
    {
        Array::kept(Kept::Num(number))
    }

    /// A scalar.
    #[inline]
    pub fn scalar(cell: Cell) -> Array
        ensures { result ≡ single cell }
    {
        Array::kept(match cell {
            Cell::Num(number) => Kept::Num(number),
            Cell::Char(character) => Kept::Char(character),
        })
    }

    /// The vector of this number, or of none. It takes no memory.
    #[inline]
    pub fn at_most_one(number: Option<i64>) -> Array
        ensures { result ≡ at_most_one number }
    {
        Array::kept(match number {
            Some(number) => Kept::Single(number),
            None => Kept::Empty,
        })
    }

    /// The array of this shape with these elements in ravel order. It is a limit fault exactly where the product of the lengths, an axis of
    /// length 0 counted as 1, is more than [`MAX_ELEMENTS`], before memory is asked for. A scalar
    /// takes no memory.
    pub fn new(alloc: Global, shape: ArrayVec<usize, MAX_RANK>, ravel: Ravel) -> Result<Array, Stop>
        requires { length (cells_of (items_of ravel)) ≡ size_of shape.items }
        ensures value { Answers (λ a. a) (ok_map (λ u. record { shape = shape.items; items = items_of ravel }) (is_bounded shape.items)) result }
        ensures at_once { FaultsFirst (is_bounded shape.items) result }
        ensures scalar { shape.items ≡ [] → IsOk result }
    {
        if is_in_bounds(shape.as_slice()) {
            ravel.inspect();
            Ok(Array::formed(alloc, shape, ravel)?)
        } else {
            Err(Stop::Fault(Fault::Limit))
        }
    }

    /// The same by a slice of lengths. It is a limit fault too where there are more than [`MAX_RANK`].
    pub fn from_shape(alloc: Global, shape: &[usize], ravel: Ravel) -> Result<Array, Stop>
        requires { length (cells_of (items_of ravel)) ≡ size_of shape.now }
        ensures value { Answers (λ a. a) (ok_map (λ s. record { shape = s; items = items_of ravel }) (limited shape.now)) result }
        ensures at_once { FaultsFirst (limited shape.now) result }
        ensures scalar { shape.now ≡ [] → IsOk result }
    {
        match ArrayVec::try_from(shape) {
            Ok(lengths) => Array::new(alloc, lengths, ravel),
            Err(_) => Err(Stop::Fault(Fault::Limit)),
        }
    }

    /// The array of this shape, which is within the limits, with these elements in ravel order. A scalar takes no memory.
    pub fn in_shape(alloc: Global, shape: &[usize], ravel: Ravel) -> Result<Array, AllocError>
        requires full { length (cells_of (items_of ravel)) ≡ size_of shape.now }
        requires few { length shape.now ≤ MAX_RANK }
        requires small { bound_of shape.now ≤ MAX_ELEMENTS }
        ensures value { IfOk result (λ array. array ≡ record { shape = shape.now; items = items_of ravel }) }
        ensures scalar { shape.now ≡ [] → IsOk result }
    {
        ravel.inspect();
        Array::formed(alloc, lengths(shape), ravel)
    }

    /// The array of one axis with these elements.
    pub fn vector(alloc: Global, ravel: Ravel) -> Result<Array, AllocError>
        requires { length (cells_of (items_of ravel)) ≤ MAX_ELEMENTS }
        ensures { IfOk result (λ array. array ≡ vector (items_of ravel)) }
    {
        let count = ravel.len();
        Array::in_shape(alloc, &[count], ravel)
    }

    /// The array of this shape with these elements. A scalar is stored in place, and takes no memory.
    pub(crate) fn formed(
        alloc: Global,
        shape: ArrayVec<usize, MAX_RANK>,
        ravel: Ravel,
    ) -> Result<Array, AllocError>
        requires { IsArray shape.items (items_of ravel) }
        ensures value { IfOk result (λ array. array ≡ record { shape = shape.items; items = items_of ravel }) }
        ensures scalar { shape.items ≡ [] → IsOk result }
    {
        if shape.is_empty() {
            return match ravel.cell(0) {
                Some(cell) => Ok(Array::scalar(cell)),
                None => unreachable!(),
            };
        }
        let dense = Rc::new(alloc, Dense::new(shape, ravel))?;
        Ok(Array::kept(Kept::Dense(dense)))
    }

    /// One element as a scalar, which takes no memory, any other number of elements as a vector.
    pub fn from_ravel(alloc: Global, ravel: Ravel) -> Result<Array, AllocError>
        requires { length (cells_of (items_of ravel)) ≤ MAX_ELEMENTS }
        ensures value { IfOk result (λ array. array ≡ simple (items_of ravel)) }
        ensures scalar { length (cells_of (items_of ravel)) ≡ 1 → IsOk result }
    {
        let mut shape = ArrayVec::new();
        let count = ravel.len();
        if count != 1 {
            shape.push(count);
        }
        ravel.inspect();
        Array::formed(alloc, shape, ravel)
    }

    /// One number as a scalar, which takes no memory, any other number of numbers as a vector.
    pub fn from_nums(alloc: Global, numbers: Vec<i64>) -> Result<Array, AllocError>
        requires { length numbers.items ≤ MAX_ELEMENTS }
        ensures value { IfOk result (λ array. array ≡ simple (Numbers numbers.items)) }
        ensures scalar { length numbers.items ≡ 1 → IsOk result }
    {
        Array::from_ravel(alloc, Ravel::wide(numbers))
    }

    /// One character as a scalar, which takes no memory, any other number of characters as a vector.
    pub fn from_chars(alloc: Global, characters: Vec<Ch>) -> Result<Array, AllocError>
        requires { length characters.items ≤ MAX_ELEMENTS }
        ensures value { IfOk result (λ array. array ≡ simple (Characters characters.items)) }
        ensures scalar { length characters.items ≡ 1 → IsOk result }
    {
        Array::from_ravel(alloc, Ravel::Chars(characters))
    }

    /// The array of this one's shape with other elements. A scalar takes no memory.
    pub fn with_ravel(&self, alloc: Global, ravel: Ravel) -> Result<Array, AllocError>
        requires { length (cells_of (items_of ravel)) ≡ size_of self.now.shape }
        ensures value { IfOk result (λ array. array ≡ record { shape = self.now.shape; items = items_of ravel }) }
        ensures scalar { self.now.shape ≡ [] → IsOk result }
    {
        Array::in_shape(alloc, self.shape(), ravel)
    }
}
