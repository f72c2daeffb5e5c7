// Elements of a vector at places that numbers count.
ghost use Rattle.std.specs.Prelude.{◌≡◌, ℕ, ◌<◌, ◌≤◌, ◌∷◌, [], length, pos, slice_index_or, IfOk, IfSome, Ok, Some};
ghost use Rattle.apl_arrays.specs.Cells.{cells_of};
ghost use Rattle.apl_arrays.specs.Left.{listed};
ghost use Rattle.apl_arrays.specs.Numbers.{kept_values, values};
ghost use Rattle.apl_arrays.specs.Ravels.{items_of};
ghost use Rattle.apl_arrays.specs.Results.{all_ok};
ghost use Rattle.apl_select.specs.Indexing.{indexed, place_numbered};
ghost use Rattle.apl_select.specs.inside.Numbered.{item_numbered, items_numbered};

use apl_arrays::{Array, Elements, Lane, MAX_ELEMENTS, NumberSlice, NumberVec, Ravel, numbers_in};
use std::alloc::{AllocError, Global};

/// The place that a number counts from the index origin, or one beyond those of any array. It is one subtraction and no test.
#[inline(always)]
fn place_from(number: i64, origin: usize) -> usize
    requires { origin ≤ 1 }
    ensures { (n : ℕ) → n ≤ MAX_ELEMENTS → result < n → place_numbered n origin number ≡ Ok result }
{
    (number.cast_unsigned() as usize).wrapping_sub(origin)
}

/// The same of the number at a place of a list.
#[inline(always)]
fn place_at<L: Lane>(numbers: &[L], at: usize, origin: usize) -> usize
    requires at { at < length numbers.now }
    requires origin { origin ≤ 1 }
    ensures { (n : ℕ) → n ≤ MAX_ELEMENTS → result < n → place_numbered n origin (slice_index_or (L.numbers numbers.now) at (pos 0)) ≡ Ok result }
{
    place_from(numbers[at].wide(), origin)
}

/// The elements at the places that numbers count, where each counts one. They go into room that is there already, so that the loop holds
/// one test. It stands apart, so that the loop has registers enough.
#[inline(never)]
fn read_numbered<T: Copy, L: Lane>(
    alloc: Global,
    raw: &[T],
    numbers: &[L],
    origin: usize,
) -> Result<Option<Vec<T>>, AllocError>
    requires small { length raw.now ≤ MAX_ELEMENTS }
    requires origin { origin ≤ 1 }
    ensures { IfOk result (λ found. IfSome found (λ v. (d : T) → all_ok (item_numbered raw.now origin d) (L.numbers numbers.now) ≡ Ok v.items)) }
{
    let mut out = Vec::with_capacity(alloc, numbers.len())?;
    for k in 0..numbers.len() {
        let place = place_at(numbers, k, origin);
        if raw.len() <= place {
            return Ok(None);
        }
        out.push_reserved(raw[place]);
    }
    Ok(Some(out))
}

/// The same of numbers of any type.
fn numbers_numbered<L: Lane>(
    alloc: Global,
    raw: NumberSlice<'_>,
    numbers: &[L],
    origin: usize,
) -> Result<Option<NumberVec>, AllocError>
    requires small { length (values raw) ≤ MAX_ELEMENTS }
    requires origin { origin ≤ 1 }
    ensures { IfOk result (λ found. IfSome found (λ v. all_ok (item_numbered (values raw.entry) origin (pos 0)) (L.numbers numbers.now) ≡ Ok (kept_values v))) }
{
    match raw {
        NumberSlice::I8(raw) => {
            let read = read_numbered(alloc, raw, numbers, origin)?;
            Ok(read.map(NumberVec::I8))
        }
        NumberSlice::I32(raw) => {
            let read = read_numbered(alloc, raw, numbers, origin)?;
            Ok(read.map(NumberVec::I32))
        }
        NumberSlice::I64(raw) => {
            let read = read_numbered(alloc, raw, numbers, origin)?;
            Ok(read.map(NumberVec::I64))
        }
    }
}

/// The same of elements.
fn items_numbered<L: Lane>(
    alloc: Global,
    items: Elements<'_>,
    numbers: &[L],
    origin: usize,
) -> Result<Option<Ravel>, AllocError>
    requires small { length (cells_of (listed items)) ≤ MAX_ELEMENTS }
    requires origin { origin ≤ 1 }
    ensures { IfOk result (λ found. IfSome found (λ r. items_numbered (listed items.entry) origin (L.numbers numbers.now) ≡ Ok (items_of r))) }
{
    match items {
        Elements::Nums(raw) => match numbers_numbered(alloc, raw, numbers, origin)? {
            Some(read) => Ok(Some(Ravel::Nums(read))),
            None => Ok(None),
        },
        Elements::Chars(raw) => match read_numbered(alloc, raw, numbers, origin)? {
            Some(read) => Ok(Some(Ravel::Chars(read))),
            None => Ok(None),
        },
    }
}

/// The elements at the places that numbers of any type count, where each counts one.
fn elements_numbered(
    alloc: Global,
    items: Elements<'_>,
    numbers: NumberSlice<'_>,
    origin: usize,
) -> Result<Option<Ravel>, AllocError>
    requires small { length (cells_of (listed items)) ≤ MAX_ELEMENTS }
    requires origin { origin ≤ 1 }
    ensures { IfOk result (λ found. IfSome found (λ r. items_numbered (listed items.entry) origin (values numbers.entry) ≡ Ok (items_of r))) }
{
    match numbers {
        NumberSlice::I8(numbers) => items_numbered(alloc, items, numbers, origin),
        NumberSlice::I32(numbers) => items_numbered(alloc, items, numbers, origin),
        NumberSlice::I64(numbers) => items_numbered(alloc, items, numbers, origin),
    }
}

/// The elements of a vector that an array's numbers pick, where nothing is at fault.
pub(crate) fn vector_picked(
    alloc: Global,
    b: &Array,
    a: &Array,
    origin: usize,
) -> Result<Option<Array>, AllocError>
    requires vector { length b.now.shape ≡ 1 }
    requires origin { origin ≤ 1 }
    ensures { IfOk result (λ found. IfSome found (λ r. indexed b.now (Some a.now ∷ []) origin ≡ Ok r)) }
{
    let items = b.items();
    let Ok(numbers) = numbers_in(a.items()) else {
        return Ok(None);
    };
    match elements_numbered(alloc, items, numbers, origin)? {
        Some(ravel) => Ok(Some(Array::in_shape(alloc, a.shape(), ravel)?)),
        None => Ok(None),
    }
}
