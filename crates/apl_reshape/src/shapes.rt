// The shape of an array, its elements as a vector, and its elements in another shape.
ghost use Rattle.std.specs.Prelude.{◌≡◌, ◌≤◌, length, IfOk, map, pos};
ghost use Rattle.apl_arrays.specs.Answers.{Answers, FaultsFirst};
ghost use Rattle.apl_arrays.specs.Index.{bound_of};
ghost use Rattle.apl_reshape.specs.Reshape.{raveled, reshaped, shape_of};

use crate::named::shape_named_by;
use crate::rounds::Round;
use apl_arrays::{Array, MAX_ELEMENTS, NumberVec, Ravel, Stop, size};
use std::alloc::{AllocError, Global};

/// The length of an axis as a number.
fn length_number(length: usize) -> i32
    requires { length ≤ MAX_ELEMENTS }
    ensures { result ≡ pos length }
{
    length as i32
}

/// The lengths of axes as numbers.
fn length_numbers(alloc: Global, lengths: &[usize]) -> Result<Vec<i32>, AllocError>
    requires { bound_of lengths.now ≤ MAX_ELEMENTS }
    ensures { IfOk result (λ v. v.items ≡ map pos lengths.now) }
{
    let mut numbers = Vec::with_capacity(alloc, lengths.len())?;
    for length in lengths {
        numbers.push(length_number(*length))?;
    }
    Ok(numbers)
}

/// The lengths of the axes, as a vector.
pub fn shape(alloc: Global, b: &Array) -> Result<Array, Stop>
    ensures { Answers (λ r. r) (Ok (shape_of b.now)) result }
{
    let lengths = NumberVec::I32(length_numbers(alloc, b.shape())?);
    Ok(Array::vector(alloc, Ravel::Nums(lengths))?)
}

/// The elements in ravel order, as a vector. A vector stays.
pub fn ravel(alloc: Global, b: &Array) -> Result<Array, Stop>
    ensures { Answers (λ r. r) (Ok (raveled b.now)) result }
{
    if b.shape().len() == 1 {
        return Ok(b.copy()?);
    }
    Ok(Array::vector(alloc, b.items().to_ravel(alloc)?)?)
}

/// The elements of B in ravel order, taken round, in the shape that A names.
///
/// A is a scalar or a vector of lengths, else it is a rank fault. It is a domain fault where A has characters or a number below 0, then a
/// limit fault where the shape is beyond the limits. Every fault is found before memory is asked for. Where B has no elements, zeros or
/// blanks stand for them.
pub fn reshape(alloc: Global, a: &Array, b: &Array) -> Result<Array, Stop>
    ensures value { Answers (λ r. r) (reshaped a.now b.now) result }
    ensures at_once { FaultsFirst (reshaped a.now b.now) result }
{
    let lengths = shape_named_by(a)?;
    let round = Round {
        count: size(lengths.as_slice()),
    };
    let ravel = b.items().made_by(alloc, round)?;
    Ok(Array::in_shape(alloc, lengths.as_slice(), ravel)?)
}
