// Indexed assignment.
ghost use Rattle.std.specs.Prelude.{◌≡◌, ◌<◌, ◌≤◌, ℤ, length, IfOk, IsSome, IsTrue, OnErr, Some, ◌==◌, ◌||◌};
ghost use Rattle.std.specs.List.{All};
ghost use Rattle.apl_arrays.specs.Answers.{Answers, FaultsFirst, HadMemory};
ghost use Rattle.apl_arrays.specs.Checks.{count_of, demand, same};
ghost use Rattle.apl_arrays.specs.Index.{bound_of};
ghost use Rattle.apl_arrays.specs.Left.{listed};
ghost use Rattle.apl_arrays.specs.Origins.{origin_number};
ghost use Rattle.apl_arrays.specs.Simple.{at_most_one, lone_number};
ghost use Rattle.apl_arrays.specs.Written.{AreEnough};
ghost use Rattle.apl_arrays.specs.Results.{and_then};
ghost use Rattle.apl_select.specs.Assignment.{assigned, assigned_at, fits_over, proper, same_type};
ghost use Rattle.apl_select.specs.Indexing.{joined_shape, slots_fit, AreNumbers};
ghost use Rattle.apl_select.specs.inside.Reached.{AreOnAxes};
ghost use Rattle.apl_select.specs.inside.Single.{IsTried};
ghost use Rattle.apl_select.specs.inside.Written.{overwritten};

use crate::reach::places_led;
use crate::slots::{Picked, fault_of_numbers, joined_shape, picks_of, place_picked};
use apl_arrays::{Array, Elements, MAX_ELEMENTS, Origin, Stop, size, within_limits};
use apl_faults::Fault;
use std::alloc::{AllocError, Global};

/// The places to which index lists within what is joined lead, where `b` fits the joined shape: its shape is asked first and then its type.
fn places_at(
    alloc: Global,
    v: &Array,
    picks: &[Picked],
    shape: &[usize],
    b: &Array,
) -> Result<Vec<usize>, Stop>
    requires on_axes { AreOnAxes v.now.shape picks.now }
    requires joined { shape.now ≡ joined_shape picks.now }
    requires room { bound_of shape.now ≤ MAX_ELEMENTS }
    ensures value { Answers (λ places. overwritten v.now b.now places.items) (assigned_at v.now picks.now shape.now b.now) result }
    ensures within { IfOk result (λ places. All (λ q. q < count_of v.now) places.items) }
    ensures enough { IfOk result (λ places. AreEnough (count_of b.now) (length places.items)) }
{
    fits_over(alloc, shape, b)?;
    of_one_type(size(shape), v.items(), b.items())?;
    let places = places_led(alloc, v.shape(), picks)?;
    Ok(places)
}

/// The places that an indexed assignment writes one after another, where everything fits.
fn places_assigned(
    alloc: Global,
    v: &Array,
    slots: &[Option<Array>],
    b: &Array,
    origin: usize,
) -> Result<Vec<usize>, Stop>
    ensures value { Answers (λ places. overwritten v.now b.now places.items) (assigned v.now slots.now b.now origin) result }
    ensures at_once { FaultsFirst (slots_fit v.now slots.now) result }
    ensures within { IfOk result (λ places. All (λ q. q < count_of v.now) places.items) }
    ensures enough { IfOk result (λ places. AreEnough (count_of b.now) (length places.items)) }
{
    let picks = picks_of(alloc, v, slots, origin)?;
    let shape = joined_shape(alloc, picks.as_slice())?;
    within_limits(shape.as_slice())?;
    places_at(alloc, v, picks.as_slice(), shape.as_slice(), b)
}

/// The array `v` with the elements of `b`, which are enough, written to places one after another.
fn overwritten(alloc: Global, v: &Array, b: &Array, places: &[usize]) -> Result<Array, AllocError>
    requires within { All (λ q. q < count_of v.now) places.now }
    requires enough { AreEnough (count_of b.now) (length places.now) }
    ensures { IfOk result (λ array. array ≡ overwritten v.now b.now places.now) }
{
    let ravel = v.items().written(alloc, places, b.items())?;
    Ok(Array::in_shape(alloc, v.shape(), ravel)?)
}

/// The number, where there is just one element and it is a number.
#[inline]
fn lone_number(items: Elements<'_>) -> Option<i64>
    ensures { result ≡ lone_number (listed items.entry) }
{
    match items {
        Elements::Nums(numbers) => numbers.only(),
        Elements::Chars(_) => None,
    }
}

/// Writes a number over the one element that slots pick, and says whether it did. It did not where more is written than a number, and where
/// a slot holds anything but one number. Slots of one number each that pick no place are at fault. It takes no memory.
#[inline]
fn number_assigned(
    array: &mut Array,
    slots: &[Option<Array>],
    value: &Array,
    origin: usize,
) -> Result<bool, Fault>
    ensures value { IsTried result (assigned array.old slots.now value.now origin) array.old array.new }
    ensures single { (z : ℤ) → array.old ≡ at_most_one (Some z) → AreNumbers slots.now → IsSome (lone_number value.now.items) → IfOk result (λ done. IsTrue done) }
{
    let Some(place) = place_picked(array, slots, origin) else {
        return match fault_of_numbers(array, slots) {
            Some(fault) => Err(fault),
            None => Ok(false),
        };
    };
    match lone_number(value.items()) {
        Some(number) => Ok(array.set_number(place, number)),
        None => Ok(false),
    }
}

/// Changes the array itself, element by element. After each error it is as it was.
fn elements_assigned(
    alloc: Global,
    array: &mut Array,
    slots: &[Option<Array>],
    value: &Array,
    origin: usize,
) -> Result<(), Stop>
    ensures value { Answers (λ u. array.new) (assigned array.old slots.now value.now origin) result }
    ensures at_once { FaultsFirst (slots_fit array.old slots.now) result }
    ensures err { OnErr result (array.new ≡ array.old) }
{
    let places = places_assigned(alloc, array, slots, value, origin)?;
    if array.write(places.as_slice(), value.items()) {
        return Ok(());
    }
    *array = overwritten(alloc, array, value, places.as_slice())?;
    Ok(())
}

/// The array `v` with the elements of `b` where slots pick, one slot for each axis, in ravel order of the slots' shapes one after another:
/// the last of those for one place stands. A single element serves at each place. An empty slot picks the whole axis, and numbers count places
/// from the index origin.
///
/// Another count of slots than of axes is a rank fault, before memory is asked for. Then of the slots from left to right characters are a
/// domain fault, but where there are none, and a number that counts no place of its axis is an index fault. Slots whose shapes joined are
/// beyond the limits of an array are a limit fault. Then, axes of length 1 left away, another count of axes of `b` than of the joined shape
/// is a rank fault, and another length a length fault. Elements of another type than `v`'s are a domain fault, but where no place is picked.
pub fn index_assign(
    alloc: Global,
    v: &Array,
    slots: &[Option<Array>],
    b: &Array,
    origin: Origin,
) -> Result<Array, Stop>
    ensures value { Answers (λ r. r) (assigned v.now slots.now b.now (origin_number origin)) result }
    ensures at_once { FaultsFirst (slots_fit v.now slots.now) result }
{
    let places = places_assigned(alloc, v, slots, b, origin.number())?;
    Ok(overwritten(alloc, v, b, places.as_slice())?)
}

/// Changes the array itself so. After each error it is as it was.
///
/// One number over that of a vector of one number takes no memory, where slots of one number each count places or not.
// Where no copy shares the elements they are written in place, one number for slots of one number each without an allocation. Whether a copy
// shares them isn't in the model of a `Array`, nor in that of the `Rc` below it, so no clause can say this.
pub fn index_assign_into(
    alloc: Global,
    array: &mut Array,
    slots: &[Option<Array>],
    value: &Array,
    origin: Origin,
) -> Result<(), Stop>
    ensures value { Answers (λ u. array.new) (assigned array.old slots.now value.now (origin_number origin)) result }
    ensures at_once { FaultsFirst (slots_fit array.old slots.now) result }
    ensures err { OnErr result (array.new ≡ array.old) }
    ensures numbers { (z : ℤ) → array.old ≡ at_most_one (Some z) → AreNumbers slots.now → IsSome (lone_number value.now.items) → HadMemory result }
{
    let first = origin.number();
    if number_assigned(array, slots, value, first)? {
        return Ok(());
    }
    elements_assigned(alloc, array, slots, value, first)
}

/// The lengths other than 1.
fn proper(alloc: Global, shape: &[usize]) -> Result<Vec<usize>, AllocError>
    ensures { IfOk result (λ v. v.items ≡ proper shape.now) }
{
    shape.iter().copied().filter(|len| *len != 1).collect(alloc)
}

/// It is a rank fault where there are more or fewer lengths than wanted, and a length fault where they are others.
fn same_lengths(found: &[usize], wanted: &[usize]) -> Result<(), Fault>
    ensures { result ≡ and_then (demand (length found.now == length wanted.now) Fault.Rank) (λ u. demand (same found.now wanted.now) Fault.Length) }
{
    if found.len() != wanted.len() {
        Err(Fault::Rank)
    } else if found == wanted {
        Ok(())
    } else {
        Err(Fault::Length)
    }
}

/// One element fits over any shape. Any other array is a rank fault where it has more or fewer axes than the shape, of those whose length
/// isn't 1, and a length fault where these axes have other lengths.
pub(crate) fn fits_over(alloc: Global, shape: &[usize], b: &Array) -> Result<(), Stop>
    ensures { Answers (λ u. u) (fits_over shape.now b.now) result }
{
    if b.items().len() == 1 {
        return Ok(());
    }
    let found = proper(alloc, b.shape())?;
    let wanted = proper(alloc, shape)?;
    same_lengths(found.as_slice(), wanted.as_slice())?;
    Ok(())
}

/// Whether both are numbers, or both are characters.
fn same_type(to: Elements<'_>, from: Elements<'_>) -> bool
    ensures { result ≡ same_type (listed to.entry) (listed from.entry) }
{
    to.is_numeric() == from.is_numeric()
}

/// It is a domain fault where there are places for elements of another type.
pub(crate) fn of_one_type(count: usize, to: Elements<'_>, from: Elements<'_>) -> Result<(), Fault>
    ensures { result ≡ demand (count == 0 || same_type (listed to.entry) (listed from.entry)) Fault.Domain }
{
    if count == 0 || same_type(to, from) {
        Ok(())
    } else {
        Err(Fault::Domain)
    }
}
