// Numbers in the type that stores them.
ghost use Rattle.std.specs.Prelude.{◌≡◌, ◌==◌, ◌<◌, List, ℤ, pos, length, slice_get, slice_index_or, FitsSigned, IfOk};
ghost use Rattle.apl_arrays.specs.Cells.{Numbers};
ghost use Rattle.apl_arrays.specs.Numbers.{kept_values, typed_items, values};
ghost use Rattle.apl_arrays.specs.Simple.{lone_number};
ghost use Rattle.apl_arrays.specs.Equality.{slice_eq, slice_equiv};
ghost use Rattle.std.specs.Cmp.{partial_equiv_from_equiv};
ghost use Rattle.std.specs.Cmp.Lexicographic.{pointwise};
ghost use Rattle.std.specs.Ordering.{int_eq};
ghost use Rattle.std.specs.Int.{w64};
ghost use Rattle.std.specs.List.{All};
ghost use Rattle.std.specs.Iterator.{YieldsFirst};

use crate::both::Wide;
use crate::lane::Lane;
use crate::squeeze::{converted, inspect, narrow};
use std::alloc::{AllocError, Global};

/// Numbers where they lie, in the type that stores them. As an iterator it gives them one after another, and is then what is left.
#[derive(Clone, Copy, Debug)]
pub enum NumberSlice<'a> {
    I8(&'a [i8]),
    I32(&'a [i32]),
    I64(&'a [i64]),
}

/// Numbers that are kept, in the type that stores them.
#[derive(Debug, Drop)]
pub enum NumberVec {
    I8(Vec<i8>),
    I32(Vec<i32>),
    I64(Vec<i64>),
}

impl<'a> NumberSlice<'a> {
    /// How many numbers there are.
    #[inline]
    pub fn len(self) -> usize
        ensures { result ≡ length (values self.entry) }
    {
        match self {
            NumberSlice::I8(raw) => raw.len(),
            NumberSlice::I32(raw) => raw.len(),
            NumberSlice::I64(raw) => raw.len(),
        }
    }

    /// Whether there is no number.
    #[inline]
    pub fn is_empty(self) -> bool
        ensures { result ≡ (length (values self.entry) == 0) }
    {
        self.len() == 0
    }

    /// The number at a place, from 0; none where there are not so many.
    #[inline]
    pub fn get(self, place: usize) -> Option<i64>
        ensures { result ≡ slice_get (values self.entry) place }
    {
        match self {
            NumberSlice::I8(raw) => raw.get(place).map(|x| x.wide()),
            NumberSlice::I32(raw) => raw.get(place).map(|x| x.wide()),
            NumberSlice::I64(raw) => raw.get(place).map(|x| x.wide()),
        }
    }

    /// The number at a place, from 0.
    #[inline]
    pub fn at(self, place: usize) -> i64
        requires { place < length (values self) }
        ensures { result ≡ slice_index_or (values self.entry) place (pos 0) }
    {
        match self {
            NumberSlice::I8(raw) => raw[place].wide(),
            NumberSlice::I32(raw) => raw[place].wide(),
            NumberSlice::I64(raw) => raw[place],
        }
    }

    /// The number, where there is just one.
    #[inline]
    pub fn only(self) -> Option<i64>
        ensures { result ≡ lone_number (Numbers (values self.entry)) }
    {
        if self.len() == 1 { self.get(0) } else { None }
    }

    /// The same numbers as numbers of 64 bits: where they lie, if they are, or else made.
    pub fn wide(self, alloc: Global) -> Result<Wide<'a>, AllocError>
        ensures { IfOk result (λ wide. typed_items wide ≡ values self.entry) }
    {
        match self {
            NumberSlice::I64(raw) => Ok(Wide::Lies(raw)),
            _ => Ok(Wide::Made(self.to_wide(alloc)?)),
        }
    }

    /// The same numbers again, as numbers of 64 bits.
    pub fn to_wide(self, alloc: Global) -> Result<Vec<i64>, AllocError>
        ensures { IfOk result (λ made. made.items ≡ values self.entry) }
    {
        match self {
            NumberSlice::I8(raw) => converted(alloc, raw),
            NumberSlice::I32(raw) => converted(alloc, raw),
            NumberSlice::I64(raw) => Vec::from_slice(alloc, raw),
        }
    }

    /// The same numbers again, in the narrowest type that holds all of them.
    pub fn squeezed(self, alloc: Global) -> Result<NumberVec, AllocError>
        ensures { IfOk result (λ kept. kept_values kept ≡ values self.entry) }
    {
        let narrow = match self {
            NumberSlice::I8(_) => None,
            NumberSlice::I32(raw) => narrow(alloc, raw)?,
            NumberSlice::I64(raw) => narrow(alloc, raw)?,
        };
        match narrow {
            Some(kept) => Ok(kept),
            None => self.to_vec(alloc),
        }
    }

    /// The same numbers again, in the same type.
    pub fn to_vec(self, alloc: Global) -> Result<NumberVec, AllocError>
        ensures { IfOk result (λ kept. kept_values kept ≡ values self.entry) }
    {
        match self {
            NumberSlice::I8(raw) => Ok(NumberVec::I8(Vec::from_slice(alloc, raw)?)),
            NumberSlice::I32(raw) => Ok(NumberVec::I32(Vec::from_slice(alloc, raw)?)),
            NumberSlice::I64(raw) => Ok(NumberVec::I64(Vec::from_slice(alloc, raw)?)),
        }
    }
}

impl NumberVec {
    /// The numbers where they lie.
    #[inline]
    pub fn as_slice(&self) -> NumberSlice<'_>
        ensures { values result ≡ kept_values self.now }
    {
        match self {
            NumberVec::I8(raw) => NumberSlice::I8(raw.as_slice()),
            NumberVec::I32(raw) => NumberSlice::I32(raw.as_slice()),
            NumberVec::I64(raw) => NumberSlice::I64(raw.as_slice()),
        }
    }

    /// How many numbers there are.
    #[inline]
    pub fn len(&self) -> usize
        ensures { result ≡ length (kept_values self.now) }
    {
        self.as_slice().len()
    }

    /// Whether there is no number.
    #[inline]
    pub fn is_empty(&self) -> bool
        ensures { result ≡ (length (kept_values self.now) == 0) }
    {
        self.as_slice().is_empty()
    }

    /// The same numbers again, in the same type.
    pub fn copy(&self) -> Result<NumberVec, AllocError>
        ensures { IfOk result (λ copied. kept_values copied ≡ kept_values self.now) }
    {
        match self {
            NumberVec::I8(raw) => Ok(NumberVec::I8(raw.clone()?)),
            NumberVec::I32(raw) => Ok(NumberVec::I32(raw.clone()?)),
            NumberVec::I64(raw) => Ok(NumberVec::I64(raw.clone()?)),
        }
    }

    /// Reads each number, which shows its range, and does nothing.
    pub(crate) fn inspect(&self)
        ensures { All (λ z. FitsSigned w64 z) (kept_values self.now) }
    {
        match self {
            NumberVec::I8(raw) => inspect(raw.as_slice()),
            NumberVec::I32(raw) => inspect(raw.as_slice()),
            NumberVec::I64(raw) => inspect(raw.as_slice()),
        }
    }

    /// Numbers in the narrowest type that holds all of them.
    pub fn squeezed(alloc: Global, numbers: Vec<i64>) -> Result<NumberVec, AllocError>
        ensures { IfOk result (λ kept. kept_values kept ≡ numbers.items) }
    {
        match narrow(alloc, numbers.as_slice())? {
            Some(kept) => Ok(kept),
            None => Ok(NumberVec::I64(numbers)),
        }
    }
}

/// By value, whatever type stores the numbers.
impl<'a> PartialEq for NumberSlice<'a> {
    ghost eq = { slice_eq };

    ghost laws = { partial_equiv_from_equiv slice_equiv };

    fn eq(&self, other: &NumberSlice<'a>) -> bool {
        match *self {
            NumberSlice::I8(a) => match *other {
                NumberSlice::I8(b) => a == b,
                _ => equal_to(a, *other),
            },
            NumberSlice::I32(a) => match *other {
                NumberSlice::I32(b) => a == b,
                _ => equal_to(a, *other),
            },
            NumberSlice::I64(a) => match *other {
                NumberSlice::I64(b) => a == b,
                _ => equal_to(a, *other),
            },
        }
    }
}

impl<'a> Eq for NumberSlice<'a> {
    ghost laws = { slice_equiv };
}

/// Whether numbers are the same as those of any type.
fn equal_to<L: Lane>(a: &[L], b: NumberSlice<'_>) -> bool
    ensures { result ≡ pointwise int_eq (L.numbers a.now) (values b.entry) }
{
    match b {
        NumberSlice::I8(b) => are_equal(a, b),
        NumberSlice::I32(b) => are_equal(a, b),
        NumberSlice::I64(b) => are_equal(a, b),
    }
}

/// Whether numbers of two types are the same.
fn are_equal<L: Lane, M: Lane>(a: &[L], b: &[M]) -> bool
    ensures { result ≡ pointwise int_eq (L.numbers a.now) (M.numbers b.now) }
{
    if a.len() != b.len() {
        return false;
    }
    for i in 0..a.len() {
        if a[i].wide() != b[i].wide() {
            return false;
        }
    }
    true
}

impl<'a> Iterator for NumberSlice<'a> {
    type Item = i64;

    ghost use Rattle.std.specs.Iterator.{YieldsFirst, item_count};

    ghost next_gives = { YieldsFirst values };

    ghost remaining = { item_count values };

    fn next(&mut self) -> Option<i64> {
        match self {
            NumberSlice::I8(raw) => take_first(raw),
            NumberSlice::I32(raw) => take_first(raw),
            NumberSlice::I64(raw) => take_first(raw),
        }
    }
}

/// Takes the first number away, where there is one.
#[inline(always)]
fn take_first<'a, L: Lane>(items: &mut &'a [L]) -> Option<i64>
    ensures { YieldsFirst (λ (zs : List ℤ). zs) (L.numbers items.old.now) result (L.numbers items.new.now) }
{
    let (first, rest) = items.split_first()?;
    *items = rest;
    Some(first.wide())
}
