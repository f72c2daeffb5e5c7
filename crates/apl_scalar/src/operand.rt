// The numbers of an operand by the places of the result, and those for a block, one after another in a lane.
ghost use Rattle.std.specs.Prelude.{◌≡◌, ◌+◌, IfSome, ◌≤◌, ◌-◌, ℕ, length, slice_range, IsTrue};
ghost use Rattle.apl_scalar.specs.Operands.{shown, number_at, Covers};
ghost use Rattle.apl_scalar.specs.Lanes.{laid_in, shown_in, IsPiece};
ghost use Rattle.apl_arrays.specs.Numbers.{values};
ghost use Rattle.apl_scalar.specs.inside.Rooms.{IsReady, Holds};

use crate::computed::Computed;
use crate::line::Laid;
use apl_arrays::{Lane, NumberSlice};

/// The numbers of an operand: one that serves at each place of the result, or one for each place.
#[derive(Clone, Copy)]
pub(crate) enum Operand<'a> {
    One(i64),
    Many(NumberSlice<'a>),
}

/// The same for a lane: numbers of it, or those of a narrower one.
#[derive(Clone, Copy)]
pub(crate) enum Source<'a, L> {
    One(L),
    Lies(&'a [L]),
    Narrow(NumberSlice<'a>),
}

impl<'a> Operand<'a> {
    /// The number for a place.
    #[inline(always)]
    pub(crate) fn at(self, place: usize) -> i64
        requires { Covers (shown self) (place + 1) }
        ensures { result ≡ number_at (shown self.entry) place }
    {
        match self {
            Operand::One(number) => number,
            Operand::Many(numbers) => numbers.at(place),
        }
    }

    /// Whether one number serves at each place.
    #[inline(always)]
    pub(crate) fn is_one(self) -> bool {
        matches!(self, Operand::One(_))
    }

    /// Whether a lane holds it: the number, or the type that stores the numbers.
    #[inline(always)]
    pub(crate) fn fits<L: Computed>(self) -> bool {
        match self {
            Operand::One(number) => L::cut(number).is_some(),
            Operand::Many(numbers) => L::source(numbers).is_some(),
        }
    }

    /// The same numbers where they lie in a lane; none where they don't.
    #[inline(always)]
    pub(crate) fn laid<L: Computed>(self) -> Option<Laid<'a, L>>
        ensures { IfSome result (λ l. laid_in L.value L.numbers l ≡ shown self.entry) }
    {
        match self.in_lane::<L>()? {
            Source::One(number) => Some(Laid::One(number)),
            Source::Lies(numbers) => Some(Laid::Many(numbers)),
            Source::Narrow(_) => None,
        }
    }

    /// The same numbers for a lane; none where it doesn't hold them.
    #[inline(always)]
    pub(crate) fn in_lane<L: Computed>(self) -> Option<Source<'a, L>>
        ensures { IfSome result (λ s. shown_in L.value L.numbers s ≡ shown self.entry) }
    {
        match self {
            Operand::One(number) => Some(Source::One(L::cut(number)?)),
            Operand::Many(numbers) => L::source(numbers),
        }
    }
}

/// Writes numbers in another lane, and says whether it holds all of them.
#[inline(never)]
fn lay_out<S: Lane, L: Lane>(numbers: &[S], out: &mut [L]) -> bool
    requires { length numbers.now ≡ length out.old }
    ensures { IsTrue result → L.numbers out.new ≡ S.numbers numbers.now }
{
    let mut holds = true;
    for i in 0..out.len() {
        match L::cut(numbers[i].wide()) {
            Some(number) => out[i] = number,
            None => holds = false,
        }
    }
    holds
}

/// The same for the numbers from one place to another.
fn lay_range<L: Lane>(numbers: NumberSlice<'_>, from: usize, till: usize, out: &mut [L]) -> bool
    requires order { from ≤ till }
    requires within { till ≤ length (values numbers) }
    requires room { length out.old ≡ till - from }
    ensures { IsTrue result → L.numbers out.new ≡ slice_range (values numbers.entry) from till }
{
    match numbers {
        NumberSlice::I8(raw) => lay_out(&raw[from..till], out),
        NumberSlice::I32(raw) => lay_out(&raw[from..till], out),
        NumberSlice::I64(raw) => lay_out(&raw[from..till], out),
    }
}

/// Writes the numbers for the places from one to another in the room, where they lie in another lane, and says whether this one holds them.
#[inline(always)]
pub(crate) fn lay<L: Lane>(source: &Source<'_, L>, from: usize, till: usize, room: &mut [L]) -> bool
    requires covers { Covers (shown_in L.value L.numbers source.now) till }
    requires order { from ≤ till }
    requires ready { IsReady L.value source.now (till - from) (L.numbers room.old) }
    ensures holds { IsTrue result → Holds L.value source.now from till (L.numbers room.new) }
    ensures ready { (n : ℕ) → IsReady L.value source.now n (L.numbers room.old) → IsReady L.value source.now n (L.numbers room.new) }
{
    match source {
        Source::Narrow(numbers) => lay_range(*numbers, from, till, &mut room[..till - from]),
        Source::One(_) | Source::Lies(_) => true,
    }
}

/// The numbers for the places from one to another, where they lie or in the room.
#[inline(always)]
pub(crate) fn piece<'a, L: Lane>(
    source: &Source<'a, L>,
    from: usize,
    till: usize,
    room: &'a [L],
) -> Laid<'a, L>
    requires covers { Covers (shown_in L.value L.numbers source.now) till }
    requires order { from ≤ till }
    requires holds { Holds L.value source.now from till (L.numbers room.now) }
    ensures { IsPiece (shown_in L.value L.numbers source.now) from till (laid_in L.value L.numbers result) }
{
    match source {
        Source::One(number) if room.is_empty() => Laid::One(*number),
        Source::One(_) => Laid::Many(&room[..till - from]),
        Source::Lies(numbers) => Laid::Many(&numbers[from..till]),
        Source::Narrow(_) => Laid::Many(&room[..till - from]),
    }
}
