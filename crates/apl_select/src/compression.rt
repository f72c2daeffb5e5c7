// Compression and expansion.
ghost use Rattle.std.specs.Prelude.{◌≡◌, ◌<◌, ◌≤◌, ◌∷◌, [], length, IsTrue, cond, map, pos, slice_index_or, true, IfOk, Ok};
ghost use Rattle.std.specs.List.{list_all};
ghost use Rattle.apl_arrays.specs.Answers.{Answers, FaultsFirst};
ghost use Rattle.apl_arrays.specs.Cells.{cells_of};
ghost use Rattle.apl_arrays.specs.Checks.{vector_rank};
ghost use Rattle.apl_arrays.specs.Index.{bound_of, size_of};
ghost use Rattle.apl_arrays.specs.Left.{listed};
ghost use Rattle.apl_arrays.specs.Numbers.{values};
ghost use Rattle.apl_arrays.specs.Origins.{origin_number};
ghost use Rattle.apl_arrays.specs.Ravels.{items_of};
ghost use Rattle.apl_arrays.specs.Structural.{made_of};
ghost use Rattle.apl_select.specs.Compress.{compressed, compressed_along, compression_checks, places_kept, expanded, expanded_along, expansion_checks, places_spread, is_bit, is_one};
ghost use Rattle.apl_select.specs.inside.Masks.{kept_all, AreBits};
ghost use Rattle.apl_select.specs.Lined.{item_or, laid_within};

use crate::bits::{bits_in, common_count, count_ones, fits_ones, kept, ones, spread};
use crate::lines::{axis_in, laid, lined_shape};
use apl_arrays::{
    Along, Array, Elements, Lane, MAX_ELEMENTS, NumberSlice, Origin, Ravel, Stop, Structural,
};
use apl_faults::Fault;
use std::alloc::{AllocError, Global};

/// It is a rank fault where an array has more than one axis.
fn within_a_vector(array: &Array) -> Result<(), Fault>
    ensures { result ≡ vector_rank array.now }
{
    if array.rank() <= 1 {
        Ok(())
    } else {
        Err(Fault::Rank)
    }
}

/// Whether there is a bit for each element of a vector, so many in all.
fn is_bit_each(bits: NumberSlice<'_>, shape: &[usize], count: usize) -> bool
    ensures shape { IsTrue result → shape.now ≡ length (values bits.entry) ∷ [] }
    ensures count { IsTrue result → count ≡ length (values bits.entry) }
{
    match shape {
        [len] if *len == bits.len() => count == *len,
        _ => false,
    }
}

/// The compression of elements in a shape, along an axis. That of a vector takes one pass.
fn compress_along(
    alloc: Global,
    a: &Array,
    axis: usize,
    shape: &[usize],
    items: Elements<'_>,
) -> Result<Array, Stop>
    requires axis { axis < length shape.now }
    requires full { length (cells_of (listed items)) ≡ size_of shape.now }
    requires small { bound_of shape.now ≤ MAX_ELEMENTS }
    ensures value { Answers (λ r. r) (compressed_along a.now axis (record { shape = shape.now; items = listed items.entry })) result }
    ensures at_once { FaultsFirst (places_kept a.now axis (record { shape = shape.now; items = listed items.entry })) result }
{
    let count = common_count(a.items().len(), shape[axis])?;
    let bits = bits_in(a.items())?;
    if is_bit_each(bits, shape, count) {
        return Ok(kept_of_vector(alloc, bits, items)?);
    }
    let places = kept(alloc, bits, shape[axis], count)?;
    laid(alloc, items, shape, axis, places.as_slice())
}

/// The expansion of elements in a shape, along an axis.
fn expand_along(
    alloc: Global,
    a: &Array,
    axis: usize,
    shape: &[usize],
    items: Elements<'_>,
) -> Result<Array, Stop>
    requires axis { axis < length shape.now }
    requires full { length (cells_of (listed items)) ≡ size_of shape.now }
    requires small { bound_of shape.now ≤ MAX_ELEMENTS }
    ensures value { Answers (λ r. r) (expanded_along a.now axis (record { shape = shape.now; items = listed items.entry })) result }
    ensures at_once { FaultsFirst (places_spread a.now axis (record { shape = shape.now; items = listed items.entry })) result }
{
    fits_ones(ones(a.items()), shape[axis])?;
    let bits = bits_in(a.items())?;
    let places = spread(alloc, bits, shape[axis])?;
    laid(alloc, items, shape, axis, places.as_slice())
}

/// The elements of `b` along an axis where `a` has a 1. A single element of either extends over the other, and a scalar `b` is a vector.
///
/// A named axis that isn't one of `b`'s is an axis fault, then more than one axis of `a` a rank fault, then unequal lengths are a length
/// fault, then anything but zeros and ones in `a` is a domain fault: all these before memory is asked for. A result beyond the limits of an
/// array is a limit fault.
pub fn compress(
    alloc: Global,
    along: Along,
    a: &Array,
    b: &Array,
    origin: Origin,
) -> Result<Array, Stop>
    ensures value { Answers (λ r. r) (compressed along.entry a.now b.now (origin_number origin)) result }
    ensures at_once { FaultsFirst (compression_checks along.entry a.now b.now (origin_number origin)) result }
{
    let axis = axis_in(along, b.rank(), origin)?;
    within_a_vector(a)?;
    compress_along(alloc, a, axis, lined_shape(b.shape()), b.items())
}

/// The elements of `b` along an axis at the ones of `a`, and fills, 0 or blank, at its zeros. A single place of `b` serves at each one, and
/// a scalar `b` is a vector.
///
/// A named axis that isn't one of `b`'s is an axis fault, then more than one axis of `a` a rank fault, then another count of ones than of
/// places is a length fault, then anything but zeros and ones in `a` is a domain fault: all these before memory is asked for. A result beyond
/// the limits of an array is a limit fault.
pub fn expand(
    alloc: Global,
    along: Along,
    a: &Array,
    b: &Array,
    origin: Origin,
) -> Result<Array, Stop>
    ensures value { Answers (λ r. r) (expanded along.entry a.now b.now (origin_number origin)) result }
    ensures at_once { FaultsFirst (expansion_checks along.entry a.now b.now (origin_number origin)) result }
{
    let axis = axis_in(along, b.rank(), origin)?;
    within_a_vector(a)?;
    expand_along(alloc, a, axis, lined_shape(b.shape()), b.items())
}

/// How far the next item stands behind the one for a bit.
#[inline(always)]
fn step<L: Lane>(bits: &[L], k: usize) -> usize
    requires within { k < length bits.now }
    requires bits { list_all is_bit (L.numbers bits.now) ≡ true }
    ensures { result ≡ cond (is_one (slice_index_or (L.numbers bits.now) k (pos 0))) 1 0 }
{
    if bits[k].wide() == 0 { 0 } else { 1 }
}

/// The items of a vector at the ones of as many zeros and ones.
#[derive(Clone, Copy)]
struct Keeping<'b, L> {
    bits: &'b [L],
}

// Each item is written where the next one stands, so that those at zeros are written over. There is no branch to predict.
impl<'b, L: Lane> Structural for Keeping<'b, L> {
    ghost use Rattle.std.specs.Prelude.{map};
    ghost use Rattle.apl_select.specs.inside.Masks.{kept_all, AreBits};
    ghost use Rattle.apl_select.specs.Lined.{item_or};

    ghost takes = { λ k n. AreBits (L.numbers k.bits.now) n };

    ghost makes = { λ A k d fill xs. map (item_or fill xs) (kept_all (L.numbers k.bits.now)) };

    fn make<T: Copy>(self, alloc: Global, items: &[T], fill: T) -> Result<Vec<T>, AllocError> {
        let count = count_ones(self.bits);
        let mut out = vec![in alloc; fill; count + 1]?;
        let mut next = 0usize;
        for k in 0..self.bits.len() {
            out[next] = items[k];
            next += step(self.bits, k);
        }
        out.truncate(count);
        Ok(out)
    }
}

/// The elements of a vector at the ones of as many zeros and ones.
fn kept_elements(
    alloc: Global,
    bits: NumberSlice<'_>,
    items: Elements<'_>,
) -> Result<Ravel, AllocError>
    requires { AreBits (values bits) (length (cells_of (listed items))) }
    ensures { IfOk result (λ r. items_of r ≡ made_of (λ A d fill xs. map (item_or fill xs) (kept_all (values bits.entry))) (listed items.entry)) }
{
    match bits {
        NumberSlice::I8(bits) => items.made_by(alloc, Keeping { bits }),
        NumberSlice::I32(bits) => items.made_by(alloc, Keeping { bits }),
        NumberSlice::I64(bits) => items.made_by(alloc, Keeping { bits }),
    }
}

/// The vector of them.
pub(crate) fn kept_of_vector(
    alloc: Global,
    bits: NumberSlice<'_>,
    items: Elements<'_>,
) -> Result<Array, AllocError>
    requires { AreBits (values bits) (length (cells_of (listed items))) }
    ensures { IfOk result (λ array. laid_within 0 (kept_all (values bits.entry)) (record { shape = length (values bits.entry) ∷ []; items = listed items.entry }) ≡ Ok array) }
{
    Ok(Array::vector(alloc, kept_elements(alloc, bits, items)?)?)
}
