// Scans of numbers in row-major order, each prefix from the one before it, where all have values.
ghost use Rattle.std.specs.Prelude.{◌≡◌, ◌<◌, ◌≤◌, ◌+◌, ◌-◌, ◌*◌, ◌∷◌, ◌++◌, [], ℕ, ℤ, List, Result, pos, length, slice_index_or, IfOk, IsTrue, Ok, OnOk};
ghost use Rattle.apl_faults.specs.declared.fault.Fault.{Fault};
ghost use Rattle.apl_arrays.specs.declared.axis.Axis.{Axis};
ghost use Rattle.apl_arrays.specs.Numbers.{kept_values};
ghost use Rattle.apl_scalar.specs.declared.function.Dyadic.TheVariants as two;
ghost use Rattle.apl_scalar.specs.Functions.{dyadic_of};
ghost use Rattle.apl_folds.specs.Lines.{fold_by};
ghost use Rattle.apl_folds.specs.inside.Prefixes.{index_along, prefix_fold, prefix_folds, AllHaveRoom, AreLater, ArePrefixes, AreWhole, Stays};
ghost use Rattle.apl_folds.specs.inside.Sums.{HasRoom};

use crate::choice::Choice;
use crate::sums::plus;
use apl_arrays::{Axis, Lane, NumberVec};
use apl_scalar::grow;
use std::alloc::{AllocError, Global};
use std::marker::PhantomData;

/// A function whose fold of numbers is made of that of the numbers before the last one, in a type that has room for it.
pub(crate) trait Running<L: Lane, M: Lane> {
    /// The function of numbers without bounds.
    ghost meaning: { ℤ → ℤ → Result ℤ Fault };

    /// There is room for the fold of these numbers.
    ghost room: { List ℤ → Type 0 };

    /// The fold of one number.
    fn first(number: L) -> M
        ensures { room (L.value number ∷ []) → M.value result ≡ L.value number };

    /// The fold with a number more.
    fn then(fold: M, number: L) -> M
        ensures { (numbers : List ℤ) → room (numbers ++ L.value number ∷ []) → fold_by meaning numbers ≡ Ok (M.value fold) → fold_by meaning (numbers ++ L.value number ∷ []) ≡ Ok (M.value result) };

    /// Whether the fold is seen to stay the same with any of some numbers more.
    fn stays(fold: M, numbers: &[L], from: usize, till: usize) -> bool
        requires { till ≤ length numbers.now }
        ensures { IsTrue result → (at : ℕ) → from ≤ at → at < till → Stays meaning (M.value fold) (slice_index_or (L.numbers numbers.now) at (pos 0)) };
}

/// A function that chooses one of two numbers.
pub(crate) struct Chosen<C>(PhantomData<C>);

impl<C: Choice, L: Lane> Running<L, L> for Chosen<C> {
    ghost meaning = { C.meaning };

    ghost room = { λ _. Unit {0} };

    #[inline(always)]
    fn first(number: L) -> L {
        number
    }

    #[inline(always)]
    fn then(fold: L, number: L) -> L {
        C::of(fold, number)
    }

    #[inline(always)]
    fn stays(fold: L, numbers: &[L], from: usize, till: usize) -> bool {
        let mut all = true;
        for at in from..till {
            all &= C::of(fold, numbers[at]).equals(fold);
        }
        all
    }
}

/// The sum.
pub(crate) struct Total;

impl<L: Lane, M: Lane> Running<L, M> for Total {
    ghost meaning = { dyadic_of two.Plus };

    ghost room = { HasRoom M.width };

    #[inline(always)]
    fn first(number: L) -> M {
        M::low(number.wide())
    }

    #[inline(always)]
    fn then(fold: M, number: L) -> M {
        plus(fold, number.wide())
    }

    #[inline(always)]
    fn stays(_fold: M, _numbers: &[L], _from: usize, _till: usize) -> bool {
        false
    }
}

/// How many prefixes are looked at together.
const BLOCK: usize = 128;

/// For up to this many prefixes room is made at once, since all of it stays in cache.
const FEW: usize = 4096;

/// Makes room for the prefixes before a place, of so many in all. Where there is too little, zeros are appended for a block or more, as far as
/// prefixes are left: so few that they are still in cache when the prefixes are written over them.
#[inline(always)]
fn make_room<M: Lane>(out: &mut Vec<M>, till: usize, all: usize) -> Result<(), AllocError>
    requires order { till ≤ all }
    requires few { length out.old.items ≤ all }
    ensures enough { OnOk result (till ≤ length out.new.items) }
    ensures few { OnOk result (length out.new.items ≤ all) }
    ensures kept { OnOk result ((q : ℕ) → slice_index_or (M.numbers out.new.items) q (pos 0) ≡ slice_index_or (M.numbers out.old.items) q (pos 0)) }
{
    let before = out.len();
    if till <= before {
        return Ok(());
    }
    grow(out, (till - before).max(BLOCK).min(all - before))?;
    Ok(())
}

/// Writes the same prefix at each place from one to another.
fn repeat<M: Lane>(out: &mut [M], from: usize, till: usize, fold: M)
    requires order { from ≤ till }
    requires within { till ≤ length out.old }
    ensures size { length out.new ≡ length out.old }
    ensures prefixes { (f : ℤ → ℤ → Result ℤ Fault) (zs : List ℤ) (axis : Axis) → ArePrefixes f zs axis from (M.numbers out.old) → ((q : ℕ) → from ≤ q → q < till → prefix_fold f zs axis q ≡ Ok (M.value fold)) → ArePrefixes f zs axis till (M.numbers out.new) }
{
    for at in from..till {
        out[at] = fold;
    }
}

/// Writes the prefixes from one place to another, each from the one before it, and answers the last: at once where all are seen to be the one
/// before.
#[inline(always)]
fn run_block<R: Running<L, M>, L: Lane, M: Lane>(
    numbers: &[L],
    axis: Axis,
    from: usize,
    till: usize,
    before: M,
    out: &mut [M],
) -> M
    requires whole { AreWhole (L.numbers numbers.now) axis }
    requires room { AllHaveRoom R.room (L.numbers numbers.now) axis }
    requires beside { axis.up ≡ 1 }
    requires order { from ≤ till }
    requires later { AreLater axis from till }
    requires within { till ≤ length numbers.now }
    requires size { till ≤ length out.old }
    requires told { prefix_fold R.meaning (L.numbers numbers.now) axis (from - 1) ≡ Ok (M.value before) }
    requires so_far { ArePrefixes R.meaning (L.numbers numbers.now) axis from (M.numbers out.old) }
    ensures size { length out.new ≡ length out.old }
    ensures told { prefix_fold R.meaning (L.numbers numbers.now) axis (till - 1) ≡ Ok (M.value result) }
    ensures prefixes { ArePrefixes R.meaning (L.numbers numbers.now) axis till (M.numbers out.new) }
{
    if R::stays(before, numbers, from, till) {
        repeat(out, from, till, before);
        return before;
    }
    let mut fold = before;
    for at in from..till {
        fold = R::then(fold, numbers[at]);
        out[at] = fold;
    }
    fold
}

/// Writes the prefixes of a line of numbers that lie side by side, block by block.
fn run_line<R: Running<L, M>, L: Lane, M: Lane>(
    numbers: &[L],
    axis: Axis,
    from: usize,
    out: &mut Vec<M>,
) -> Result<(), AllocError>
    requires whole { AreWhole (L.numbers numbers.now) axis }
    requires room { AllHaveRoom R.room (L.numbers numbers.now) axis }
    requires beside { axis.up ≡ 1 }
    requires line { index_along axis from ≡ 0 }
    requires within { from + axis.length ≤ length numbers.now }
    requires few { length out.old.items ≤ length numbers.now }
    requires so_far { ArePrefixes R.meaning (L.numbers numbers.now) axis from (M.numbers out.old.items) }
    ensures enough { OnOk result (from + axis.length ≤ length out.new.items) }
    ensures few { OnOk result (length out.new.items ≤ length numbers.now) }
    ensures prefixes { OnOk result (ArePrefixes R.meaning (L.numbers numbers.now) axis (from + axis.length) (M.numbers out.new.items)) }
{
    make_room(out, from + 1, numbers.len())?;
    let mut fold = R::first(numbers[from]);
    out.as_mut_slice()[from] = fold;
    let end = from + axis.length;
    let mut at = from + 1;
    while at < end {
        let next = at + (end - at).min(BLOCK);
        make_room(out, next, numbers.len())?;
        fold = run_block::<R, L, M>(numbers, axis, at, next, fold, out.as_mut_slice());
        at = next;
    }
    Ok(())
}

/// The same line by line.
fn run_lines<R: Running<L, M>, L: Lane, M: Lane>(
    numbers: &[L],
    axis: Axis,
    out: &mut Vec<M>,
) -> Result<(), AllocError>
    requires whole { AreWhole (L.numbers numbers.now) axis }
    requires room { AllHaveRoom R.room (L.numbers numbers.now) axis }
    requires beside { axis.up ≡ 1 }
    requires few { length out.old.items ≤ length numbers.now }
    ensures { OnOk result (prefix_folds R.meaning (L.numbers numbers.now) axis ≡ Ok (M.numbers out.new.items)) }
{
    for line in 0..numbers.len() / axis.length {
        run_line::<R, L, M>(numbers, axis, line * axis.length, out)?;
    }
    Ok(())
}

/// The prefix at a place, by those before it.
#[inline(always)]
fn prefix_at<R: Running<L, M>, L: Lane, M: Lane>(
    numbers: &[L],
    axis: Axis,
    index: usize,
    at: usize,
    out: &[M],
) -> M
    requires whole { AreWhole (L.numbers numbers.now) axis }
    requires room { AllHaveRoom R.room (L.numbers numbers.now) axis }
    requires index { index_along axis at ≡ index }
    requires within { at < length numbers.now }
    requires size { at ≤ length out.now }
    requires so_far { ArePrefixes R.meaning (L.numbers numbers.now) axis at (M.numbers out.now) }
    ensures { prefix_fold R.meaning (L.numbers numbers.now) axis at ≡ Ok (M.value result) }
{
    if index == 0 {
        R::first(numbers[at])
    } else {
        R::then(out[at - axis.up], numbers[at])
    }
}

/// Writes the prefixes of a row of numbers, which all have the same index along the axis.
fn run_row<R: Running<L, M>, L: Lane, M: Lane>(numbers: &[L], axis: Axis, row: usize, out: &mut [M])
    requires whole { AreWhole (L.numbers numbers.now) axis }
    requires room { AllHaveRoom R.room (L.numbers numbers.now) axis }
    requires within { row * axis.up + axis.up ≤ length numbers.now }
    requires size { row * axis.up + axis.up ≤ length out.old }
    requires so_far { ArePrefixes R.meaning (L.numbers numbers.now) axis (row * axis.up) (M.numbers out.old) }
    ensures size { length out.new ≡ length out.old }
    ensures prefixes { ArePrefixes R.meaning (L.numbers numbers.now) axis (row * axis.up + axis.up) (M.numbers out.new) }
{
    let index = row % axis.length;
    let from = row * axis.up;
    for at in from..from + axis.up {
        let prefix = prefix_at::<R, L, M>(numbers, axis, index, at, out);
        out[at] = prefix;
    }
}

/// The same row by row.
fn run_rows<R: Running<L, M>, L: Lane, M: Lane>(
    numbers: &[L],
    axis: Axis,
    out: &mut Vec<M>,
) -> Result<(), AllocError>
    requires whole { AreWhole (L.numbers numbers.now) axis }
    requires room { AllHaveRoom R.room (L.numbers numbers.now) axis }
    requires few { length out.old.items ≤ length numbers.now }
    ensures { OnOk result (prefix_folds R.meaning (L.numbers numbers.now) axis ≡ Ok (M.numbers out.new.items)) }
{
    for row in 0..numbers.len() / axis.up {
        make_room(out, row * axis.up + axis.up, numbers.len())?;
        run_row::<R, L, M>(numbers, axis, row, out.as_mut_slice());
    }
    Ok(())
}

/// All prefixes.
pub(crate) fn run<R: Running<L, M>, L: Lane, M: Lane>(
    alloc: Global,
    numbers: &[L],
    axis: Axis,
) -> Result<NumberVec, AllocError>
    requires whole { AreWhole (L.numbers numbers.now) axis }
    requires room { AllHaveRoom R.room (L.numbers numbers.now) axis }
    ensures { IfOk result (λ out. prefix_folds R.meaning (L.numbers numbers.now) axis ≡ Ok (kept_values out)) }
{
    let mut out = Vec::with_capacity(alloc, numbers.len())?;
    grow(&mut out, numbers.len().min(FEW))?;
    if axis.up == 1 {
        run_lines::<R, L, M>(numbers, axis, &mut out)?;
        return Ok(M::kept(out));
    }
    run_rows::<R, L, M>(numbers, axis, &mut out)?;
    Ok(M::kept(out))
}
