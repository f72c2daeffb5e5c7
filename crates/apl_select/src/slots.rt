// What index slots pick of the axes of an array.
ghost use Rattle.std.specs.Prelude.{◌≡◌, ◌<◌, [], ◌∷◌, length, pos, slice_index_or, IfOk, ◌≤◌, IfSome, MatchOption};
ghost use Rattle.std.specs.List.{All, range_with_len, list_all};
ghost use Rattle.apl_arrays.specs.Answers.{Answers, FaultsFirst};
ghost use Rattle.apl_arrays.specs.Index.{size_of, bound_of};
ghost use Rattle.apl_arrays.specs.Numbers.{values};
ghost use Rattle.apl_arrays.specs.Results.{all_ok};
ghost use Rattle.apl_arrays.specs.Cells.{IsArray};
ghost use Rattle.apl_select.specs.Indexing.{all_picked, joined_shape, picked_by, place_numbered, slots_fit, slots_of, AreNumbers};
ghost use Rattle.apl_select.specs.inside.Reached.{AreOnAxes};
ghost use Rattle.apl_select.specs.inside.Single.{counted_by, fault_of_numbers, holds_number, placed, PicksNone, PicksPlace};

use apl_arrays::{Array, Lane, MAX_ELEMENTS, NumberSlice, Stop, numbers_in};
use apl_faults::Fault;
use std::alloc::{AllocError, Global};
use std::marker::Model;

/// Places on an axis, in ravel order of a shape.
#[derive(Drop)]
pub(crate) struct Picked {
    shape: Vec<usize>,
    places: Vec<usize>,
}

impl Model for Picked {
    ghost use Rattle.apl_select.specs.Indexing.{Places};

    ghost Value = { Places };

    ghost view = { λ p. record { shape = p.shape.items; places = p.places.items } };
}

impl Picked {
    /// The shape.
    pub(crate) fn shape(&self) -> &[usize]
        ensures { result.now ≡ self.now.shape }
    {
        self.shape.as_slice()
    }

    /// The places.
    pub(crate) fn places(&self) -> &[usize]
        ensures { result.now ≡ self.now.places }
    {
        self.places.as_slice()
    }
}

/// The place that a number counts from the index origin. It is an index fault where the axis has no such place.
pub(crate) fn numbered(number: i64, len: usize, origin: usize) -> Result<usize, Fault>
    ensures { result ≡ place_numbered len origin number }
{
    if number < 0 {
        return Err(Fault::Index);
    }
    let number = number as usize;
    if origin <= number && number - origin < len {
        Ok(number - origin)
    } else {
        Err(Fault::Index)
    }
}

/// The same of the number at a place of a list.
#[inline(always)]
fn numbered_at<L: Lane>(numbers: &[L], at: usize, len: usize, origin: usize) -> Result<usize, Fault>
    requires { at < length numbers.now }
    ensures { result ≡ place_numbered len origin (slice_index_or (L.numbers numbers.now) at (pos 0)) }
{
    numbered(numbers[at].wide(), len, origin)
}

/// The places that numbers count from the index origin. The first that counts none is an index fault.
fn places_of<L: Lane>(
    alloc: Global,
    numbers: &[L],
    len: usize,
    origin: usize,
) -> Result<Vec<usize>, Stop>
    ensures { Answers (λ v. v.items) (all_ok (place_numbered len origin) (L.numbers numbers.now)) result }
{
    let mut places = Vec::with_capacity(alloc, numbers.len())?;
    for k in 0..numbers.len() {
        match numbered_at(numbers, k, len, origin) {
            Ok(place) => places.push(place)?,
            Err(fault) => return Err(Stop::Fault(fault)),
        }
    }
    Ok(places)
}

/// The same of numbers of any type.
fn places_in(
    alloc: Global,
    numbers: NumberSlice<'_>,
    len: usize,
    origin: usize,
) -> Result<Vec<usize>, Stop>
    ensures { Answers (λ v. v.items) (all_ok (place_numbered len origin) (values numbers.entry)) result }
{
    match numbers {
        NumberSlice::I8(numbers) => places_of(alloc, numbers, len, origin),
        NumberSlice::I32(numbers) => places_of(alloc, numbers, len, origin),
        NumberSlice::I64(numbers) => places_of(alloc, numbers, len, origin),
    }
}

/// All places on an axis.
fn all_places(alloc: Global, len: usize) -> Result<Vec<usize>, AllocError>
    ensures { IfOk result (λ v. v.items ≡ range_with_len 0 len) }
{
    (0..len).collect(alloc)
}

/// The whole axis.
fn whole_axis(alloc: Global, len: usize) -> Result<Picked, AllocError>
    ensures { IfOk result (λ p. p ≡ record { shape = len ∷ []; places = range_with_len 0 len }) }
{
    Ok(Picked {
        shape: Vec::from_slice(alloc, &[len])?,
        places: all_places(alloc, len)?,
    })
}

/// What a slot picks of an axis: an empty one the whole axis.
fn pick(alloc: Global, len: usize, origin: usize, slot: &Option<Array>) -> Result<Picked, Stop>
    ensures value { Answers (λ p. p) (picked_by len origin slot.now) result }
    ensures full { IfOk result (λ p. length p.places ≡ size_of p.shape) }
    ensures within { IfOk result (λ p. All (λ k. k < len) p.places) }
{
    let Some(array) = slot else {
        return Ok(whole_axis(alloc, len)?);
    };
    let numbers = numbers_in(array.items())?;
    let places = places_in(alloc, numbers, len, origin)?;
    let shape = Vec::from_slice(alloc, array.shape())?;
    Ok(Picked { shape, places })
}

/// What slots pick of all axes, one after another.
fn pick_all(
    alloc: Global,
    shape: &[usize],
    slots: &[Option<Array>],
    origin: usize,
) -> Result<Vec<Picked>, Stop>
    requires { length slots.now ≡ length shape.now }
    ensures value { Answers (λ v. v.items) (all_picked shape.now origin slots.now) result }
    ensures on_axes { IfOk result (λ v. AreOnAxes shape.now v.items) }
{
    let mut picks = Vec::with_capacity(alloc, shape.len())?;
    for k in 0..shape.len() {
        let picked = pick(alloc, shape[k], origin, &slots[k])?;
        picks.push(picked)?;
    }
    Ok(picks)
}

/// What slots pick of an array. Another count of slots than of axes is a rank fault. Then of the slots from left to right characters are a
/// domain fault, but where there are none, and a number that counts no place is an index fault.
pub(crate) fn picks_of(
    alloc: Global,
    array: &Array,
    slots: &[Option<Array>],
    origin: usize,
) -> Result<Vec<Picked>, Stop>
    ensures value { Answers (λ v. v.items) (slots_of array.now origin slots.now) result }
    ensures at_once { FaultsFirst (slots_fit array.now slots.now) result }
    ensures on_axes { IfOk result (λ v. AreOnAxes array.now.shape v.items) }
{
    if slots.len() != array.rank() {
        return Err(Stop::Fault(Fault::Rank));
    }
    pick_all(alloc, array.shape(), slots, origin)
}

/// The shapes of what is picked, one after another.
pub(crate) fn joined_shape(alloc: Global, picks: &[Picked]) -> Result<Vec<usize>, AllocError>
    ensures { IfOk result (λ v. v.items ≡ joined_shape picks.now) }
{
    let mut shape = Vec::new(alloc);
    for picked in picks {
        shape.extend_from_slice(picked.shape())?;
    }
    Ok(shape)
}

/// The place on an axis that a slot of one number counts.
#[inline]
fn place_counted(slot: &Option<Array>, len: usize, origin: usize) -> Option<usize>
    ensures value { result ≡ counted_by len origin slot.now }
    ensures within { IfSome result (λ place. place < len) }
{
    let Some(array) = slot else {
        return None;
    };
    numbered(array.as_number()?, len, origin).ok()
}

/// The place of the index list that slots of one number each count.
#[inline]
fn place_named(shape: &[usize], slots: &[Option<Array>], origin: usize) -> Option<usize>
    requires as_many { length slots.now ≡ length shape.now }
    requires small { bound_of shape.now ≤ MAX_ELEMENTS }
    ensures { placed origin 0 shape.now slots.now ≡ result }
{
    let mut place = 0usize;
    for axis in 0..shape.len() {
        let counted = place_counted(&slots[axis], shape[axis], origin)?;
        place = place * shape[axis] + counted;
    }
    Some(place)
}

/// The place that slots pick, where each is one number that counts a place of its axis. It takes no memory.
#[inline]
pub(crate) fn place_picked(array: &Array, slots: &[Option<Array>], origin: usize) -> Option<usize>
    ensures place { MatchOption result (PicksNone array.now origin slots.now) (PicksPlace array.now origin slots.now) }
    ensures array { IsArray array.now.shape array.now.items }
{
    let shape = array.shape();
    if slots.len() != shape.len() {
        return None;
    }
    place_named(shape, slots, origin)
}

/// Whether a slot holds one number.
fn holds_number(slot: &Option<Array>) -> bool
    ensures { result ≡ holds_number slot.now }
{
    match slot {
        Some(array) => array.as_number().is_some(),
        None => false,
    }
}

/// Whether each slot does.
fn all_hold_numbers(slots: &[Option<Array>]) -> bool
    ensures { result ≡ list_all holds_number slots.now }
{
    slots.iter().all(|slot| holds_number(slot))
}

/// The fault of slots of one number each, which pick no place; none where a slot holds anything else. It takes no memory.
pub(crate) fn fault_of_numbers(array: &Array, slots: &[Option<Array>]) -> Option<Fault>
    ensures { MatchOption result (AreNumbers slots.now → ⊥) (λ fault. AreNumbers slots.now × (fault ≡ fault_of_numbers array.now slots.now)) }
{
    if !all_hold_numbers(slots) {
        return None;
    }
    if slots.len() == array.rank() {
        Some(Fault::Index)
    } else {
        Some(Fault::Rank)
    }
}
