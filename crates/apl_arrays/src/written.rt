// Elements written at places.
ghost use Rattle.std.specs.Prelude.{◌≡◌, ◌<◌, length, cond, pos, IfOk};
ghost use Rattle.std.specs.List.{All};
ghost use Rattle.apl_arrays.specs.Cells.{cells_of};
ghost use Rattle.apl_arrays.specs.Left.{listed};
ghost use Rattle.apl_arrays.specs.Numbers.{kept_values, values};
ghost use Rattle.apl_arrays.specs.Ravels.{items_of};
ghost use Rattle.apl_arrays.specs.Written.{serving, with_elements, with_items, AreEnough};

use crate::both::Both;
use crate::cell::Ravel;
use crate::elements::Elements;
use crate::numbers::{NumberSlice, NumberVec};
use std::alloc::{AllocError, Global};

/// Which of so many items serves at the `k`-th place: a single one at each.
#[inline(always)]
pub(crate) fn serving(count: usize, k: usize) -> usize
    ensures { result ≡ serving count k }
{
    if count == 1 { 0 } else { k }
}

/// Writes items at places one after another, so that the last one for a place stands.
fn write_items<T: Copy>(out: &mut [T], places: &[usize], items: &[T])
    requires within { All (λ q. q < length out.old) places.now }
    requires enough { AreEnough (length items.now) (length places.now) }
    ensures { (d : T) → out.new ≡ with_items d out.old places.now items.now (length places.now) }
{
    for k in 0..places.len() {
        let source = serving(items.len(), k);
        out[places[k]] = items[source];
    }
}

impl Ravel {
    /// Writes elements at places one after another, so that the last one for a place stands, and says whether it did. A single one serves at
    /// each place, and elements of another type are not written. It did not where they are numbers that the type of these doesn't hold.
    pub(crate) fn write_in_place(&mut self, places: &[usize], items: Elements<'_>) -> bool
        requires within { All (λ q. q < length (cells_of (items_of self.old))) places.now }
        requires enough { AreEnough (length (cells_of (listed items))) (length places.now) }
        ensures { items_of self.new ≡ cond result (with_elements (items_of self.old) places.now (listed items.entry)) (items_of self.old) }
    {
        match self {
            Ravel::Nums(out) => match items {
                Elements::Nums(numbers) => out.write(places, numbers),
                Elements::Chars(_) => true,
            },
            Ravel::Chars(out) => {
                if let Elements::Chars(characters) = items {
                    write_items(out.as_mut_slice(), places, characters);
                }
                true
            }
        }
    }
}

impl<'a> Elements<'a> {
    /// These elements with others at places, written one after another, so that the last one for a place stands. A single one serves at each
    /// place, and elements of another type are not written. Numbers stay in the type that stores them, where it holds the others.
    pub fn written(
        self,
        alloc: Global,
        places: &[usize],
        items: Elements<'_>,
    ) -> Result<Ravel, AllocError>
        requires within { All (λ q. q < length (cells_of (listed self))) places.now }
        requires enough { AreEnough (length (cells_of (listed items))) (length places.now) }
        ensures { IfOk result (λ ravel. items_of ravel ≡ with_elements (listed self.entry) places.now (listed items.entry)) }
    {
        match self {
            Elements::Nums(numbers) => match items {
                Elements::Nums(others) => {
                    let kept = written_numbers(alloc, numbers, places, others)?;
                    Ok(Ravel::Nums(kept))
                }
                Elements::Chars(_) => self.to_ravel(alloc),
            },
            Elements::Chars(characters) => match items {
                Elements::Nums(_) => self.to_ravel(alloc),
                Elements::Chars(others) => {
                    let kept = written_items(alloc, characters, places, others)?;
                    Ok(Ravel::Chars(kept))
                }
            },
        }
    }
}

/// Numbers with others at places, in the type that stores them, where it holds the others.
fn written_numbers(
    alloc: Global,
    numbers: NumberSlice<'_>,
    places: &[usize],
    others: NumberSlice<'_>,
) -> Result<NumberVec, AllocError>
    requires within { All (λ q. q < length (values numbers)) places.now }
    requires enough { AreEnough (length (values others)) (length places.now) }
    ensures { IfOk result (λ kept. kept_values kept ≡ with_items (pos 0) (values numbers.entry) places.now (values others.entry) (length places.now)) }
{
    let mut kept = numbers.to_vec(alloc)?;
    if kept.write(places, others) {
        return Ok(kept);
    }
    drop(kept);
    written_wider(alloc, numbers, places, others)
}

/// The same in a type that holds both.
fn written_wider(
    alloc: Global,
    numbers: NumberSlice<'_>,
    places: &[usize],
    others: NumberSlice<'_>,
) -> Result<NumberVec, AllocError>
    requires within { All (λ q. q < length (values numbers)) places.now }
    requires enough { AreEnough (length (values others)) (length places.now) }
    ensures { IfOk result (λ kept. kept_values kept ≡ with_items (pos 0) (values numbers.entry) places.now (values others.entry) (length places.now)) }
{
    let others = others.squeezed(alloc)?;
    match Both::new(alloc, numbers, others.as_slice())? {
        Both::I8(a, b) => {
            let made = written_items(alloc, a.as_slice(), places, b.as_slice())?;
            Ok(NumberVec::I8(made))
        }
        Both::I32(a, b) => {
            let made = written_items(alloc, a.as_slice(), places, b.as_slice())?;
            Ok(NumberVec::I32(made))
        }
        Both::I64(a, b) => {
            let made = written_items(alloc, a.as_slice(), places, b.as_slice())?;
            Ok(NumberVec::I64(made))
        }
    }
}

/// A copy of items with others at places.
fn written_items<T: Copy>(
    alloc: Global,
    items: &[T],
    places: &[usize],
    others: &[T],
) -> Result<Vec<T>, AllocError>
    requires within { All (λ q. q < length items.now) places.now }
    requires enough { AreEnough (length others.now) (length places.now) }
    ensures { IfOk result (λ out. (d : T) → out.items ≡ with_items d items.now places.now others.now (length places.now)) }
{
    let mut out = Vec::from_slice(alloc, items)?;
    write_items(out.as_mut_slice(), places, others);
    Ok(out)
}
