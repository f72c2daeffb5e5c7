// The operands of kernels.
use crate::numbers::{Numbers, Width};
use apl_arrays::{Array, Lane, NumberVec, Origin, Ravel, Stop};
use apl_code::{Function, Row};
use apl_primitives::{Arguments, phrase_value};
use apl_symbols::Primitive;
use std::alloc::{AllocError, Global};

/// An operand, where a vector has so many elements.
#[derive(Clone, Copy)]
pub(crate) enum Operand {
    /// The scalar 7.
    Seven,
    /// A vector of so many elements.
    Vector(Numbers),
    /// A vector whose outer product with one of its length has so many elements, or a few less.
    Edge(Numbers),
    /// A square table of so many elements, or a few less.
    Square(Numbers),
    /// A square table whose inner product with one like it multiplies so many elements, or a few less.
    Cube(Numbers),
}

/// Where the numbers of an operand begin, in a row of which type, and how many elements a vector has there.
#[derive(Clone, Copy)]
pub(crate) struct Place {
    pub(crate) width: Width,
    pub(crate) from: u64,
    pub(crate) size: u64,
}

/// So many numbers from a place on, in a type that holds each of them.
fn items<L: Lane>(
    alloc: Global,
    numbers: Numbers,
    place: Place,
    count: u64,
) -> Result<Vec<L>, AllocError> {
    let mut items = Vec::new(alloc);
    for k in 0..count {
        let number = numbers.at(place.width, place.from.wrapping_add(k), place.size);
        items.push(L::low(number))?;
    }
    Ok(items)
}

/// So many numbers from a place on as a vector, in the type that stores them.
fn vector(alloc: Global, numbers: Numbers, place: Place, count: u64) -> Result<Array, Stop> {
    let kept = match numbers.stored(place.width) {
        Width::I64 => NumberVec::I64(items(alloc, numbers, place, count)?),
        Width::I32 => NumberVec::I32(items(alloc, numbers, place, count)?),
        Width::I8 => NumberVec::I8(items(alloc, numbers, place, count)?),
    };
    let length = kept.len();
    Array::from_shape(alloc, &[length], Ravel::Nums(kept))
}

/// The numbers from a place on in a square table.
fn square(alloc: Global, numbers: Numbers, place: Place, side: u32) -> Result<Array, Stop> {
    let all = vector(alloc, numbers, place, u64::from(side) * u64::from(side))?;
    let lengths = Vec::from_slice(alloc, &[i64::from(side), i64::from(side)])?;
    let shape = Array::from_shape(alloc, &[2], Ravel::wide(lengths))?;
    let reshape = Row::Dyadic(Function::Primitive(Primitive::Rho));
    phrase_value(alloc, &reshape, Arguments::Two(&shape, &all), Origin::One)
}

/// The side of the largest square of at most so many elements, up to 1000.
fn square_side(size: u64) -> u32 {
    for side in (1..=1000u32).rev() {
        if u64::from(side * side) <= size {
            return side;
        }
    }
    0
}

/// The side of the largest cube of at most so many elements, up to 100.
fn cube_side(size: u64) -> u32 {
    for side in (1..=100u32).rev() {
        if u64::from(side * side * side) <= size {
            return side;
        }
    }
    0
}

impl Operand {
    /// Whether its elements are only 0 and 1.
    pub(crate) fn has_booleans(self) -> bool {
        match self {
            Operand::Seven => false,
            Operand::Vector(numbers)
            | Operand::Edge(numbers)
            | Operand::Square(numbers)
            | Operand::Cube(numbers) => numbers.are_booleans(),
        }
    }

    /// The operand, whose numbers are those from a place on.
    pub(crate) fn array(self, alloc: Global, place: Place) -> Result<Array, Stop> {
        match self {
            Operand::Seven => Ok(Array::number(7)),
            Operand::Vector(numbers) => vector(alloc, numbers, place, place.size),
            Operand::Edge(numbers) => {
                let count = u64::from(square_side(place.size));
                vector(alloc, numbers, place, count)
            }
            Operand::Square(numbers) => square(alloc, numbers, place, square_side(place.size)),
            Operand::Cube(numbers) => square(alloc, numbers, place, cube_side(place.size)),
        }
    }
}
