// Folds of lines of numbers that begin side by side, a row of them at a time.
ghost use Rattle.std.specs.Prelude.{◌≡◌, ◌^◌, ◌<◌, ◌≤◌, ◌+◌, ◌-◌, ◌*◌, ◌≤ℤ◌, ℕ, ℤ, List, pos, ◌∷◌, length, slice_index_or, IsTrue, Ok};
ghost use Rattle.apl_arrays.specs.Answers.{Appends};
ghost use Rattle.apl_arrays.specs.Strides.{step_at};
ghost use Rattle.apl_folds.specs.Lines.{fold_by, folds_beside, line_of, AreFolds, AreFoldsFrom, AreFourTaken, AreTaken, IsLine};

use crate::lanes::{number_at, row};
use crate::line::fold_strided;
use crate::steps::Step;
use apl_arrays::{Axis, Lane, Stop, along, convert};
use apl_scalar::{Scalar, either, grow};

/// How many lines are folded together: so many that their numbers lie in long pieces, and their folds still stay in cache.
const BLOCK: usize = 1024;

/// Takes a number more into each fold, before the numbers that are in it. It answers a flag, which is not negative only if all are values.
#[inline(never)]
fn take_row<S: Step, L: Lane>(numbers: &[L], folds: &mut [i64]) -> i64
    requires { length numbers.now ≡ length folds.old }
    ensures { pos 0 ≤ℤ result → AreTaken S.meaning S.room (L.numbers numbers.now) folds.old folds.new }
{
    let mut flags = 0i64;
    for j in 0..folds.len() {
        let (value, flag) = S::step(number_at(numbers, j), folds[j]);
        folds[j] = value;
        flags = either(flags, flag);
    }
    flags
}

/// The fold of four numbers and of those after them, of which the fold is known, and a flag, which is not negative only if it is a value.
#[inline(always)]
fn fold_four<S: Step>(first: i64, second: i64, third: i64, fourth: i64, known: i64) -> (i64, i64)
    ensures { pos 0 ≤ℤ result.1 → (rest : List ℤ) → S.room (first ∷ second ∷ third ∷ fourth ∷ rest) → fold_by S.meaning rest ≡ Ok known →
        fold_by S.meaning (first ∷ second ∷ third ∷ fourth ∷ rest) ≡ Ok result.0 }
{
    let (one, flag) = S::step(fourth, known);
    let (two, flag_two) = S::step(third, one);
    let (three, flag_three) = S::step(second, two);
    let (four, flag_four) = S::step(first, three);
    (
        four,
        either(either(flag, flag_two), either(flag_three, flag_four)),
    )
}

/// Takes four rows of numbers more into the folds, from the last row to the first, so that each fold is read and written once for four. The
/// flag is as of [`take_row`].
#[inline(never)]
fn take_four<S: Step, L: Lane>(
    first: &[L],
    second: &[L],
    third: &[L],
    fourth: &[L],
    folds: &mut [i64],
) -> i64
    requires first { length first.now ≡ length folds.old }
    requires second { length second.now ≡ length folds.old }
    requires third { length third.now ≡ length folds.old }
    requires fourth { length fourth.now ≡ length folds.old }
    ensures { pos 0 ≤ℤ result → AreFourTaken S.meaning S.room (L.numbers first.now) (L.numbers second.now) (L.numbers third.now) (L.numbers fourth.now) folds.old folds.new }
{
    let mut flags = 0i64;
    for j in 0..folds.len() {
        let (value, flag) = fold_four::<S>(
            number_at(first, j),
            number_at(second, j),
            number_at(third, j),
            number_at(fourth, j),
            folds[j],
        );
        folds[j] = value;
        flags = either(flags, flag);
    }
    flags
}

/// The numbers at an index of an axis, from a place on, for so many lines.
#[inline(always)]
fn beside<'a, L: Lane>(
    numbers: &'a [L],
    axis: &Axis,
    at: usize,
    index: usize,
    lines: usize,
) -> &'a [L]
    requires index { index < axis.now.length }
    requires some { 0 < lines }
    requires near { at + (axis.now.up + axis.now.down) * axis.now.length < 2 ^ 63 }
    requires placed { (j : ℕ) → j < lines → at + j + step_at axis.now index < length numbers.now }
    ensures size { length result.now ≡ lines }
    ensures numbers { (j : ℕ) → j < lines → slice_index_or (L.numbers result.now) j (pos 0) ≡ slice_index_or (L.numbers numbers.now) (at + j + step_at axis.now index) (pos 0) }
{
    row(numbers, along(at, axis, index), lines)
}

/// Takes row after row into the folds, from the last but one, four at a time. It answers a flag, which is not negative only if all are values,
/// and how many rows are left, fewer than four.
fn fold_fours<S: Step, L: Lane>(
    numbers: &[L],
    axis: &Axis,
    at: usize,
    count: usize,
    folds: &mut [i64],
) -> (i64, usize)
    requires some { 0 < length folds.old }
    requires lines { (j : ℕ) → j < length folds.old → IsLine (length numbers.now) axis.now (at + j) count }
    requires room { (j : ℕ) → j < length folds.old → S.room (line_of (pos 0) (L.numbers numbers.now) axis.now (at + j) count) }
    requires last { AreFoldsFrom S.meaning (L.numbers numbers.now) axis.now at count (count - 1) folds.old }
    ensures few { result.1 < count }
    ensures size { length folds.new ≡ length folds.old }
    ensures folds { pos 0 ≤ℤ result.0 → AreFoldsFrom S.meaning (L.numbers numbers.now) axis.now at count result.1 folds.new }
{
    let lines = folds.len();
    let mut flags = 0i64;
    let mut left = count - 1;
    while 4 <= left {
        left -= 4;
        let flag = take_four::<S, L>(
            beside(numbers, axis, at, left, lines),
            beside(numbers, axis, at, left + 1, lines),
            beside(numbers, axis, at, left + 2, lines),
            beside(numbers, axis, at, left + 3, lines),
            folds,
        );
        flags = either(flags, flag);
    }
    (flags, left)
}

/// Folds the lines that begin side by side from a place on, one for each fold. It answers whether all are values.
fn fold_block<S: Step, L: Lane>(
    numbers: &[L],
    axis: &Axis,
    at: usize,
    count: usize,
    folds: &mut [i64],
) -> bool
    requires some { 0 < length folds.old }
    requires lines { (j : ℕ) → j < length folds.old → IsLine (length numbers.now) axis.now (at + j) count }
    requires room { (j : ℕ) → j < length folds.old → S.room (line_of (pos 0) (L.numbers numbers.now) axis.now (at + j) count) }
    ensures { IsTrue result → AreFolds S.meaning (L.numbers numbers.now) axis.now at count folds.new }
{
    let last = count - 1;
    convert(beside(numbers, axis, at, last, folds.len()), folds);
    let (mut flags, left) = fold_fours::<S, L>(numbers, axis, at, count, folds);
    for k in (0..left).rev() {
        let flag = take_row::<S, L>(beside(numbers, axis, at, k, folds.len()), folds);
        flags = either(flags, flag);
    }
    0 <= flags
}

/// Appends the folds of the lines that begin side by side, from one to another, each tested before the next.
fn push_each<F: Scalar, L: Lane>(
    numbers: &[L],
    axis: &Axis,
    from: usize,
    till: usize,
    count: usize,
    out: &mut Vec<i64>,
) -> Result<(), Stop>
    requires { (p : ℕ) → from ≤ p → p < till → IsLine (length numbers.now) axis.now p count }
    ensures { Appends out.old.items out.new.items (folds_beside F.meaning (L.numbers numbers.now) axis.now count from till) result }
{
    for at in from..till {
        match fold_strided::<F, L>(numbers, axis, at, count) {
            Ok(value) => out.push(value)?,
            Err(fault) => return Err(Stop::Fault(fault)),
        }
    }
    Ok(())
}

/// Appends the folds of a block of lines that begin side by side, from one to another, where they are made. Only where a flag is raised are they
/// taken back, and is there a test at each.
fn push_block<F: Scalar, S: Step, L: Lane>(
    numbers: &[L],
    axis: &Axis,
    from: usize,
    till: usize,
    count: usize,
    out: &mut Vec<i64>,
) -> Result<(), Stop>
    requires order { from < till }
    requires few { till ≤ from + BLOCK }
    requires same { S.meaning ≡ F.meaning }
    requires room { (p : ℕ) → from ≤ p → p < till → S.room (line_of (pos 0) (L.numbers numbers.now) axis.now p count) }
    requires lines { (p : ℕ) → from ≤ p → p < till → IsLine (length numbers.now) axis.now p count }
    ensures { Appends out.old.items out.new.items (folds_beside F.meaning (L.numbers numbers.now) axis.now count from till) result }
{
    let before = grow(out, till - from)?;
    let folds = out.as_mut_slice().split_at_mut(before).1;
    if fold_block::<S, L>(numbers, axis, from, count, folds) {
        return Ok(());
    }
    out.truncate(before);
    push_each::<F, L>(numbers, axis, from, till, count, out)
}

/// Appends the folds of the lines that begin side by side, from one to another, block by block.
pub(crate) fn push_columns<F: Scalar, S: Step, L: Lane>(
    numbers: &[L],
    axis: &Axis,
    first: usize,
    till: usize,
    count: usize,
    out: &mut Vec<i64>,
) -> Result<(), Stop>
    requires order { first ≤ till }
    requires same { first < till → S.meaning ≡ F.meaning }
    requires room { (p : ℕ) → first ≤ p → p < till → S.room (line_of (pos 0) (L.numbers numbers.now) axis.now p count) }
    requires lines { (p : ℕ) → first ≤ p → p < till → IsLine (length numbers.now) axis.now p count }
    ensures { Appends out.old.items out.new.items (folds_beside F.meaning (L.numbers numbers.now) axis.now count first till) result }
{
    let mut from = first;
    while from < till {
        let next = from + (till - from).min(BLOCK);
        push_block::<F, S, L>(numbers, axis, from, next, count, out)?;
        from = next;
    }
    Ok(())
}
