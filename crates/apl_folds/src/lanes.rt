// Numbers of any type that stores them, and types that have room for their sums.
ghost use Rattle.std.specs.Prelude.{◌≡◌, ◌<◌, ◌≤◌, ◌+◌, ◌*◌, ℤ, pos, length, slice_index_or, slice_range, unsigned_abs, FitsSigned, IsTrue};
ghost use Rattle.apl_folds.specs.Rooms.{AreWithin};

use apl_arrays::Lane;
use apl_scalar::wider;

/// The number at a place.
#[inline(always)]
pub fn number_at<L: Lane>(numbers: &[L], place: usize) -> i64
    requires { place < length numbers.now }
    ensures { result ≡ slice_index_or (L.numbers numbers.now) place (pos 0) }
{
    numbers[place].wide()
}

/// So many numbers from a place on.
#[inline(always)]
pub(crate) fn row<L: Lane>(numbers: &[L], at: usize, count: usize) -> &[L]
    requires { at + count ≤ length numbers.now }
    ensures size { length result.now ≡ count }
    ensures numbers { L.numbers result.now ≡ slice_range (L.numbers numbers.now) at (at + count) }
{
    &numbers[at..at + count]
}

/// A magnitude that none of these numbers exceeds, by their type. The compiler removes the loop.
pub fn most<L: Lane>(numbers: &[L]) -> u64
    ensures { AreWithin result (L.numbers numbers.now) }
{
    for number in numbers {
        let _number = number.wide();
    }
    if L::cut(0x80).is_none() {
        0x80
    } else if L::cut(0x8000_0000).is_none() {
        0x8000_0000
    } else {
        0x8000_0000_0000_0000
    }
}

/// The same by their bits: at most twice the largest magnitude.
fn most_by_bits<L: Lane>(numbers: &[L]) -> u64
    ensures { AreWithin result (L.numbers numbers.now) }
{
    let mut bound = 0u64;
    for number in numbers {
        bound = wider(bound, number.wide().unsigned_abs());
    }
    bound
}

/// The same by their bits only where their type alone leaves no room in 64 bits for the sum of so many.
pub(crate) fn most_of<L: Lane>(numbers: &[L], count: usize) -> u64
    ensures { AreWithin result (L.numbers numbers.now) }
{
    let bound = most(numbers);
    if has_room::<i64>(bound, count) {
        bound
    } else {
        most_by_bits(numbers)
    }
}

/// Whether a type has room for the sum of so many numbers within a bound, in whatever order they are added.
pub fn has_room<M: Lane>(bound: u64, count: usize) -> bool
    ensures { IsTrue result → (z : ℤ) → unsigned_abs z ≤ count * bound → FitsSigned M.width z }
{
    match i64::try_from(bound.saturating_mul(count as u64)) {
        Ok(all) => M::cut(all).is_some(),
        Err(_) => false,
    }
}
