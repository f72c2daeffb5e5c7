// Numbers of two lists in one type.
ghost use Rattle.std.specs.Prelude.{◌≡◌, ℤ, [], ◌∷◌, FitsSigned, IfOk};
ghost use Rattle.apl_arrays.specs.Numbers.{firsts, own_values, seconds, typed_items, values};

use crate::lane::Lane;
use crate::numbers::NumberSlice;
use crate::squeeze::converted;
use std::alloc::{AllocError, Global};

/// Items of one type: a single one, or where they lie, or made for it.
#[derive(Drop)]
pub enum Typed<'a, T> {
    One([T; 1]),
    Lies(&'a [T]),
    Made(Vec<T>),
}

/// Numbers of 64 bits.
pub type Wide<'a> = Typed<'a, i64>;

impl<'a, T> Typed<'a, T> {
    /// The items.
    #[inline]
    pub fn as_slice(&self) -> &[T]
        ensures { result.now ≡ typed_items self.now }
    {
        match self {
            Typed::One(item) => item.as_slice(),
            Typed::Lies(items) => *items,
            Typed::Made(items) => items.as_slice(),
        }
    }
}

impl<'a, L: Lane> Typed<'a, L> {
    /// The same numbers in a type that holds all that theirs does.
    fn widened<M: Lane>(&self, alloc: Global) -> Result<Typed<'a, M>, AllocError>
        requires { (z : ℤ) → FitsSigned L.width z → FitsSigned M.width z }
        ensures { IfOk result (λ made. M.numbers (typed_items made) ≡ L.numbers (typed_items self.now)) }
    {
        match self.as_slice() {
            [item] => Ok(Typed::One([M::low(item.wide())])),
            items => Ok(Typed::Made(converted(alloc, items)?)),
        }
    }
}

/// Numbers of one list, in the type that stores them, but at most one in the narrowest type that holds it.
#[derive(Drop)]
pub(crate) enum Own<'a> {
    I8(Typed<'a, i8>),
    I32(Typed<'a, i32>),
    I64(Typed<'a, i64>),
}

impl<'a> Own<'a> {
    fn new(numbers: NumberSlice<'a>) -> Own<'a>
        ensures { own_values result ≡ values numbers.entry }
    {
        if numbers.is_empty() {
            return Own::I8(Typed::Lies(&[]));
        }
        if let Some(number) = numbers.only() {
            return Own::one(number);
        }
        match numbers {
            NumberSlice::I8(raw) => Own::I8(Typed::Lies(raw)),
            NumberSlice::I32(raw) => Own::I32(Typed::Lies(raw)),
            NumberSlice::I64(raw) => Own::I64(Typed::Lies(raw)),
        }
    }

    /// A single number.
    fn one(number: i64) -> Own<'a>
        ensures { own_values result ≡ number ∷ [] }
    {
        if let Some(item) = i8::cut(number) {
            return Own::I8(Typed::One([item]));
        }
        match i32::cut(number) {
            Some(item) => Own::I32(Typed::One([item])),
            None => Own::I64(Typed::One([number])),
        }
    }
}

/// Numbers of two lists, both in the wider type of the two. That of at most one number is the narrowest one that holds it.
#[derive(Drop)]
pub enum Both<'a> {
    I8(Typed<'a, i8>, Typed<'a, i8>),
    I32(Typed<'a, i32>, Typed<'a, i32>),
    I64(Typed<'a, i64>, Typed<'a, i64>),
}

impl<'a> Both<'a> {
    /// The numbers of two lists. Those of the narrower type are made, and the others stay where they lie.
    pub fn new(
        alloc: Global,
        a: NumberSlice<'a>,
        b: NumberSlice<'a>,
    ) -> Result<Both<'a>, AllocError>
        ensures first { IfOk result (λ both. firsts both ≡ values a.entry) }
        ensures second { IfOk result (λ both. seconds both ≡ values b.entry) }
    {
        match Own::new(a) {
            Own::I8(x) => match Own::new(b) {
                Own::I8(y) => Ok(Both::I8(x, y)),
                Own::I32(y) => Ok(Both::I32(x.widened(alloc)?, y)),
                Own::I64(y) => Ok(Both::I64(x.widened(alloc)?, y)),
            },
            Own::I32(x) => match Own::new(b) {
                Own::I8(y) => Ok(Both::I32(x, y.widened(alloc)?)),
                Own::I32(y) => Ok(Both::I32(x, y)),
                Own::I64(y) => Ok(Both::I64(x.widened(alloc)?, y)),
            },
            Own::I64(x) => match Own::new(b) {
                Own::I8(y) => Ok(Both::I64(x, y.widened(alloc)?)),
                Own::I32(y) => Ok(Both::I64(x, y.widened(alloc)?)),
                Own::I64(y) => Ok(Both::I64(x, y)),
            },
        }
    }
}
