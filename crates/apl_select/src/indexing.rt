// Indexing.
ghost use Rattle.std.specs.Prelude.{◌≡◌, MatchOption, Err, Ok};
ghost use Rattle.apl_arrays.specs.Answers.{Answers, FaultsFirst, HadMemory};
ghost use Rattle.apl_arrays.specs.Origins.{origin_number};
ghost use Rattle.apl_arrays.specs.Simple.{single};
ghost use Rattle.apl_select.specs.Indexing.{indexed, AreNumbers, slots_fit};
ghost use Rattle.apl_select.specs.inside.Single.{fault_of_numbers};

use crate::reach::read;
use crate::slots::{Picked, fault_of_numbers, joined_shape, picks_of, place_picked};
use crate::vector::vector_picked;
use apl_arrays::{Array, Cell, Origin, Stop, size, within_limits};
use std::alloc::Global;

/// The element at the one place that slots pick, where each is a number that counts a place.
#[inline]
fn element_picked(b: &Array, slots: &[Option<Array>], origin: usize) -> Option<Cell>
    ensures { MatchOption result (AreNumbers slots.now → indexed b.now slots.now origin ≡ Err (fault_of_numbers b.now slots.now)) (λ cell. indexed b.now slots.now origin ≡ Ok (single cell)) }
{
    let place = place_picked(b, slots, origin)?;
    b.items().cell(place)
}

/// The elements that slots pick, axis by axis. It stands apart, so that the fast path of a vector stays short.
#[inline(never)]
fn elements_led_to(
    alloc: Global,
    b: &Array,
    slots: &[Option<Array>],
    origin: usize,
) -> Result<Array, Stop>
    ensures value { Answers (λ r. r) (indexed b.now slots.now origin) result }
    ensures at_once { FaultsFirst (slots_fit b.now slots.now) result }
{
    let picks = picks_of(alloc, b, slots, origin)?;
    let shape = joined_shape(alloc, picks.as_slice())?;
    within_limits(shape.as_slice())?;
    let room = size(shape.as_slice());
    let ravel = read(alloc, room, b.items(), b.shape(), picks.as_slice())?;
    Ok(Array::in_shape(alloc, shape.as_slice(), ravel)?)
}

/// The elements of `b` that slots pick, one slot for each axis, in the slots' shapes one after another. An empty slot picks the whole axis.
/// Numbers count places from the index origin.
///
/// Another count of slots than of axes is a rank fault, before memory is asked for. Then of the slots from left to right characters are a
/// domain fault, but where there are none, and a number that counts no place of its axis is an index fault. A result beyond the limits of
/// an array is a limit fault.
///
/// Slots of one number each take no memory, whether they count places or not.
pub fn index(
    alloc: Global,
    b: &Array,
    slots: &[Option<Array>],
    origin: Origin,
) -> Result<Array, Stop>
    ensures value { Answers (λ r. r) (indexed b.now slots.now (origin_number origin)) result }
    ensures at_once { FaultsFirst (slots_fit b.now slots.now) result }
    ensures numbers { AreNumbers slots.now → HadMemory result }
{
    let first = origin.number();
    if let Some(cell) = element_picked(b, slots, first) {
        return Ok(Array::scalar(cell));
    }
    if let Some(fault) = fault_of_numbers(b, slots) {
        return Err(Stop::Fault(fault));
    }
    let [Some(a)] = slots else {
        return elements_led_to(alloc, b, slots, first);
    };
    if b.rank() != 1 {
        return elements_led_to(alloc, b, slots, first);
    }
    // Those of a vector are read in one pass over the numbers. Where that meets a fault, the general path finds the first.
    match vector_picked(alloc, b, a, first)? {
        Some(array) => Ok(array),
        None => elements_led_to(alloc, b, slots, first),
    }
}
