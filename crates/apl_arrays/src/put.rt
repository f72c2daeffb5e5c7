// Numbers written over others, in the type that stores those.
ghost use Rattle.std.specs.Prelude.{◌≡◌, ◌<◌, ℤ, length, cond, pos, slice_set, FitsSigned, IsTrue};
ghost use Rattle.std.specs.List.{All, Contains};
ghost use Rattle.apl_arrays.specs.Numbers.{kept_values, values};
ghost use Rattle.apl_arrays.specs.Written.{with_items, AreEnough};

use crate::lane::Lane;
use crate::numbers::{NumberSlice, NumberVec};
use crate::squeeze::{holds, range_of};
use crate::written::serving;

impl NumberVec {
    /// Writes a number over another, and says whether it did. It did not where there is no number at the place, nor where it doesn't fit the type.
    #[inline]
    pub fn set(&mut self, place: usize, number: i64) -> bool
        ensures value { kept_values self.new ≡ cond result (slice_set (kept_values self.old) place number) (kept_values self.old) }
        ensures there { IsTrue result → place < length (kept_values self.old) }
    {
        match self {
            NumberVec::I8(out) => set_lane(out.as_mut_slice(), place, number),
            NumberVec::I32(out) => set_lane(out.as_mut_slice(), place, number),
            NumberVec::I64(out) => set_lane(out.as_mut_slice(), place, number),
        }
    }

    /// Writes numbers at places one after another, so that the last one for a place stands, and says whether it did. A single one serves at each
    /// place. It did not where the type doesn't hold all of them.
    pub fn write(&mut self, places: &[usize], numbers: NumberSlice<'_>) -> bool
        requires within { All (λ q. q < length (kept_values self.old)) places.now }
        requires enough { AreEnough (length (values numbers)) (length places.now) }
        ensures { kept_values self.new ≡ cond result (with_items (pos 0) (kept_values self.old) places.now (values numbers.entry) (length places.now)) (kept_values self.old) }
    {
        match self {
            NumberVec::I8(out) => write_to_8(out.as_mut_slice(), places, numbers),
            NumberVec::I32(out) => write_to_32(out.as_mut_slice(), places, numbers),
            NumberVec::I64(out) => {
                write_to_64(out.as_mut_slice(), places, numbers);
                true
            }
        }
    }
}

/// Writes a number over another, and says whether it did.
#[inline]
fn set_lane<L: Lane>(out: &mut [L], place: usize, number: i64) -> bool
    ensures value { L.numbers out.new ≡ cond result (slice_set (L.numbers out.old) place number) (L.numbers out.old) }
    ensures there { IsTrue result → place < length out.old }
{
    if place >= out.len() {
        return false;
    }
    match L::cut(number) {
        Some(item) => {
            out[place] = item;
            true
        }
        None => false,
    }
}

/// Writes numbers at places, where the type holds all of them, and says whether it did.
fn write_to_8(out: &mut [i8], places: &[usize], numbers: NumberSlice<'_>) -> bool
    requires within { All (λ q. q < length out.old) places.now }
    requires enough { AreEnough (length (values numbers)) (length places.now) }
    ensures { out.new ≡ cond result (with_items (pos 0) out.old places.now (values numbers.entry) (length places.now)) out.old }
{
    match numbers {
        NumberSlice::I8(items) => {
            write_lane(out, places, items);
            true
        }
        NumberSlice::I32(items) => write_held(out, places, items),
        NumberSlice::I64(items) => write_held(out, places, items),
    }
}

/// The same where they are stored in 32 bits.
fn write_to_32(out: &mut [i32], places: &[usize], numbers: NumberSlice<'_>) -> bool
    requires within { All (λ q. q < length out.old) places.now }
    requires enough { AreEnough (length (values numbers)) (length places.now) }
    ensures { out.new ≡ cond result (with_items (pos 0) out.old places.now (values numbers.entry) (length places.now)) out.old }
{
    match numbers {
        NumberSlice::I8(items) => {
            write_lane(out, places, items);
            true
        }
        NumberSlice::I32(items) => {
            write_lane(out, places, items);
            true
        }
        NumberSlice::I64(items) => write_held(out, places, items),
    }
}

/// Writes numbers at places. They are stored in 64 bits, which hold all numbers.
fn write_to_64(out: &mut [i64], places: &[usize], numbers: NumberSlice<'_>)
    requires within { All (λ q. q < length out.old) places.now }
    requires enough { AreEnough (length (values numbers)) (length places.now) }
    ensures { out.new ≡ with_items (pos 0) out.old places.now (values numbers.entry) (length places.now) }
{
    match numbers {
        NumberSlice::I8(items) => write_lane(out, places, items),
        NumberSlice::I32(items) => write_lane(out, places, items),
        NumberSlice::I64(items) => write_lane(out, places, items),
    }
}

/// Writes numbers of one type at places, where another holds all of them, and says whether it did.
fn write_held<L: Lane, M: Lane>(out: &mut [L], places: &[usize], items: &[M]) -> bool
    requires within { All (λ q. q < length out.old) places.now }
    requires enough { AreEnough (length items.now) (length places.now) }
    ensures { L.numbers out.new ≡ cond result (with_items (pos 0) (L.numbers out.old) places.now (M.numbers items.now) (length places.now)) (L.numbers out.old) }
{
    let (least, greatest) = range_of(items);
    if !holds::<L>(least, greatest) {
        return false;
    }
    write_lane(out, places, items);
    true
}

/// Writes numbers of one type at places, of another type that holds them.
fn write_lane<L: Lane, M: Lane>(out: &mut [L], places: &[usize], items: &[M])
    requires within { All (λ q. q < length out.old) places.now }
    requires enough { AreEnough (length items.now) (length places.now) }
    requires fits { (z : ℤ) → Contains (M.numbers items.now) z → FitsSigned M.width z → FitsSigned L.width z }
    ensures { L.numbers out.new ≡ with_items (pos 0) (L.numbers out.old) places.now (M.numbers items.now) (length places.now) }
{
    for k in 0..places.len() {
        let source = serving(items.len(), k);
        out[places[k]] = L::low(items[source].wide());
    }
}
