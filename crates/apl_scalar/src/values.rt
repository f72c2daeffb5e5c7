// The values of a scalar function at the places below a count, in the narrowest lane that its kind allows.
ghost use Rattle.std.specs.Prelude.{◌≡◌, pos, length, IfOk, ℤ, Result, IfErr, Ok, Err};
ghost use Rattle.apl_arrays.specs.Answers.{Answers};
ghost use Rattle.apl_arrays.specs.Numbers.{kept_values, values};
ghost use Rattle.apl_scalar.specs.Operands.{number_at, shown, values_of, Covers, Each, Same};
ghost use Rattle.apl_scalar.specs.Lanes.{IsBegun};
ghost use Rattle.apl_scalar.specs.inside.Covered.{Covers-prop};
ghost use Rattle.apl_scalar.specs.inside.Rooms.{HasRoom};
ghost use Rattle.apl_faults.specs.declared.fault.Fault.{Fault};

use crate::blocks::{BLOCK, push_by_room, push_values};
use crate::computed::Computed;
use crate::divisible::Divisible;
use crate::function::Scalar;
use crate::in_lanes::{Beyond, InLanes, Within};
use crate::in_narrow::{InNarrow, Narrowly};
use crate::in_wide::{InWide, Throughout};
use crate::narrow::Narrow;
use crate::operand::Operand;
use crate::room::grow;
use crate::tells::{Telling, Tells};
use apl_arrays::{Lane, NumberSlice, NumberVec, Stop, convert};
use apl_faults::Fault;
use std::alloc::{AllocError, Global};
use std::marker::PhantomData;

/// A scalar function with its values in a lane that holds all of them.
pub(crate) trait Tested<M: Lane> {
    /// The function of numbers without bounds.
    ghost meaning: { ℤ → ℤ → Result ℤ Fault };

    /// Its value, or its fault.
    fn tested(x: i64, y: i64) -> Result<M, Fault>
        ensures value { IfOk result (λ z. meaning x y ≡ Ok (M.value z)) }
        ensures fault { IfErr result (λ e. meaning x y ≡ Err e) };
}

/// A function with its values in 64 bits.
pub(crate) struct Whole<F>(PhantomData<F>);

impl<F: Scalar> Tested<i64> for Whole<F> {
    ghost meaning = { F.meaning };

    #[inline(always)]
    fn tested(x: i64, y: i64) -> Result<i64, Fault> {
        F::apply(x, y)
    }
}

/// The values so far and those for the other places below a count, each tested before the next, or the first fault.
#[inline(never)]
fn finish<M: Lane, T: Tested<M>>(
    made: Vec<M>,
    a: Operand<'_>,
    b: Operand<'_>,
    count: usize,
) -> Result<NumberVec, Stop>
    requires a { Covers (shown a) count }
    requires b { Covers (shown b) count }
    requires begun { IsBegun T.meaning (number_at (shown a)) (number_at (shown b)) count (M.numbers made.items) }
    ensures { Answers kept_values (values_of T.meaning (number_at (shown a.entry)) (number_at (shown b.entry)) count) result }
{
    let mut made = made;
    for k in made.len()..count {
        match T::tested(a.at(k), b.at(k)) {
            Ok(value) => made.push(value)?,
            Err(fault) => return Err(Stop::Fault(fault)),
        }
    }
    Ok(M::kept(made))
}

/// The places below a count, each with a number of either operand, at which a function is applied.
#[derive(Clone, Copy)]
pub(crate) struct Places<'a> {
    pub(crate) alloc: Global,
    pub(crate) a: Operand<'a>,
    pub(crate) b: Operand<'a>,
    pub(crate) count: usize,
    ghost covers_a: { Covers (shown a) count } by { Covers-prop (shown a) count },
    ghost covers_b: { Covers (shown b) count } by { Covers-prop (shown b) count },
}

impl<'a> Places<'a> {
    /// The places of numbers that are the only argument, which is on the right.
    #[inline(always)]
    pub(crate) fn of_one(alloc: Global, numbers: NumberSlice<'a>) -> Places<'a>
        ensures a { shown result.a ≡ Same (pos 0) }
        ensures b { shown result.b ≡ Each (values numbers.entry) }
        ensures count { result.count ≡ length (values numbers.entry) }
    {
        Places {
            alloc,
            a: Operand::One(0),
            b: Operand::Many(numbers),
            count: numbers.len(),
        }
    }

    /// The same places with the first operand on the right and the second one on the left.
    #[inline(always)]
    pub(crate) fn swapped(&self) -> Places<'a>
        ensures a { result.a ≡ self.now.b }
        ensures b { result.b ≡ self.now.a }
        ensures count { result.count ≡ self.now.count }
    {
        Places {
            alloc: self.alloc,
            a: self.b,
            b: self.a,
            count: self.count,
        }
    }

    /// Whether a lane holds both operands, of which one has a number for each place.
    #[inline(always)]
    fn fit<L: Computed>(&self) -> bool {
        self.a.fits::<L>() && self.b.fits::<L>() && !(self.a.is_one() && self.b.is_one())
    }

    /// The values so far and those for the other places, each tested before the next, or the first fault.
    #[inline(always)]
    fn completed<M: Lane, T: Tested<M>>(&self, made: Vec<M>) -> Result<NumberVec, Stop>
        requires begun { IsBegun T.meaning (number_at (shown self.now.a)) (number_at (shown self.now.b)) self.now.count (M.numbers made.items) }
        ensures { Answers kept_values (values_of T.meaning (number_at (shown self.now.a)) (number_at (shown self.now.b)) self.now.count) result }
    {
        if made.len() == self.count {
            return Ok(M::kept(made));
        }
        finish::<M, T>(made, self.a, self.b, self.count)
    }

    /// The values of a function that tells.
    pub(crate) fn told<F: Tells>(&self) -> Result<NumberVec, Stop>
        ensures { Answers kept_values (values_of F.meaning (number_at (shown self.now.a)) (number_at (shown self.now.b)) self.now.count) result }
    {
        let mut made = Vec::with_capacity(self.alloc, self.count)?;
        if self.fit::<i8>() {
            push_values::<i8, i8, Telling<F>>(&mut made, self.a, self.b, self.count)?;
        } else if self.fit::<i32>() {
            push_values::<i32, i8, Telling<F>>(&mut made, self.a, self.b, self.count)?;
        } else {
            push_values::<i64, i8, Telling<F>>(&mut made, self.a, self.b, self.count)?;
        }
        self.completed::<i8, Telling<F>>(made)
    }

    /// The values of a function of numbers of 64 bits.
    pub(crate) fn in_wide<F: InWide>(&self) -> Result<NumberVec, Stop>
        ensures { Answers kept_values (values_of F.meaning (number_at (shown self.now.a)) (number_at (shown self.now.b)) self.now.count) result }
    {
        let mut made = Vec::with_capacity(self.alloc, self.count)?;
        push_values::<i64, i64, Throughout<F>>(&mut made, self.a, self.b, self.count)?;
        self.completed::<i64, Whole<F>>(made)
    }

    /// The values of a function that divides. By one number of more than a byte it divides with 64 bits, since there a product will do.
    pub(crate) fn divided<F: InNarrow>(&self) -> Result<NumberVec, Stop>
        ensures { Answers kept_values (values_of F.meaning (number_at (shown self.now.a)) (number_at (shown self.now.b)) self.now.count) result }
    {
        if self.fit::<i8>() {
            return self.narrowly::<F, i8>();
        }
        if !self.a.is_one() && !self.b.is_one() && self.fit::<i32>() {
            return self.narrowly::<F, i32>();
        }
        self.in_wide::<F>()
    }

    /// The same in a narrow lane, as far as it holds the values, and from there on with 64 bits.
    #[inline(always)]
    fn narrowly<F: InNarrow, L: Divisible>(&self) -> Result<NumberVec, Stop>
        requires memory { HasRoom L.row BLOCK }
        ensures { Answers kept_values (values_of F.meaning (number_at (shown self.now.a)) (number_at (shown self.now.b)) self.now.count) result }
    {
        let mut made = Vec::with_capacity(self.alloc, self.count)?;
        push_values::<L, L, Narrowly<F>>(&mut made, self.a, self.b, self.count)?;
        if made.len() == self.count {
            return Ok(L::kept(made));
        }
        let mut wide = L::slice(made.as_slice()).to_wide(self.alloc)?;
        push_by_room::<i64, i64, Throughout<F>>(&mut wide, self.a, self.b, self.count)?;
        self.completed::<i64, Whole<F>>(wide)
    }

    /// The values of a function that is computed in the lanes of its arguments.
    pub(crate) fn in_lanes<F: InLanes>(&self) -> Result<NumberVec, Stop>
        ensures { Answers kept_values (values_of F.meaning (number_at (shown self.now.a)) (number_at (shown self.now.b)) self.now.count) result }
    {
        if self.fit::<i8>() {
            return self.from_lane::<F, i8>();
        }
        if self.fit::<i32>() {
            return self.from_lane::<F, i32>();
        }
        let mut made = Vec::with_capacity(self.alloc, self.count)?;
        push_values::<i64, i64, Within<F>>(&mut made, self.a, self.b, self.count)?;
        self.completed::<i64, Whole<F>>(made)
    }

    /// The same in a narrow lane, as far as it holds the values, and from there on in the next wider one.
    #[inline(always)]
    fn from_lane<F: InLanes, L: Narrow>(&self) -> Result<NumberVec, Stop>
        requires memory { HasRoom L.row BLOCK }
        ensures { Answers kept_values (values_of F.meaning (number_at (shown self.now.a)) (number_at (shown self.now.b)) self.now.count) result }
    {
        let mut made = Vec::with_capacity(self.alloc, self.count)?;
        push_values::<L, L, Within<F>>(&mut made, self.a, self.b, self.count)?;
        if made.len() == self.count {
            return Ok(L::kept(made));
        }
        self.go_on::<F, L>(made.as_slice())
    }

    /// The values so far and those for the other places, in the next wider lane.
    #[inline(never)]
    fn go_on<F: InLanes, L: Narrow>(&self, made: &[L]) -> Result<NumberVec, Stop>
        requires memory { HasRoom L.row BLOCK }
        requires begun { IsBegun F.meaning (number_at (shown self.now.a)) (number_at (shown self.now.b)) self.now.count (L.numbers made.now) }
        ensures { Answers kept_values (values_of F.meaning (number_at (shown self.now.a)) (number_at (shown self.now.b)) self.now.count) result }
    {
        let mut wide = widened(self.alloc, made, self.count)?;
        push_by_room::<L, L::Wider, Beyond<F>>(&mut wide, self.a, self.b, self.count)?;
        if wide.len() == self.count {
            return Ok(L::Wider::kept(wide));
        }
        let widest = L::Wider::slice(wide.as_slice()).to_wide(self.alloc)?;
        finish::<i64, Whole<F>>(widest, self.a, self.b, self.count)
    }
}

/// Numbers in the next wider lane, with room for so many.
fn widened<L: Narrow>(
    alloc: Global,
    numbers: &[L],
    count: usize,
) -> Result<Vec<L::Wider>, AllocError>
    ensures { IfOk result (λ wide. L.Wider.numbers wide.items ≡ L.numbers numbers.now) }
{
    let mut wide = Vec::with_capacity(alloc, count)?;
    grow(&mut wide, numbers.len())?;
    convert(numbers, wide.as_mut_slice());
    Ok(wide)
}
