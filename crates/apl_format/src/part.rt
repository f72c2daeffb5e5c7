// A part of items.
ghost use Rattle.std.specs.Prelude.{◌≡◌, ◌+◌, ◌≤◌, length, take, drop};
ghost use Rattle.apl_arrays.specs.Numbers.{values};

use apl_arrays::NumberSlice;

/// So many items from a place on.
pub(crate) fn part<T>(items: &[T], place: usize, count: usize) -> &[T]
    requires { place + count ≤ length items.now }
    ensures { result.now ≡ take count (drop place items.now) }
{
    items.split_at(place).1.split_at(count).0
}

/// The row of numbers that begins at a place.
pub(crate) fn row_at(numbers: NumberSlice<'_>, place: usize, columns: usize) -> NumberSlice<'_>
    requires { place + columns ≤ length (values numbers) }
    ensures { values result ≡ take columns (drop place (values numbers.entry)) }
{
    match numbers {
        NumberSlice::I8(raw) => NumberSlice::I8(part(raw, place, columns)),
        NumberSlice::I32(raw) => NumberSlice::I32(part(raw, place, columns)),
        NumberSlice::I64(raw) => NumberSlice::I64(part(raw, place, columns)),
    }
}
