// Sums of rows of numbers.
ghost use Rattle.std.specs.Prelude.{◌≡◌, ◌^◌, ◌<◌, ◌≤◌, ◌*◌, ◌+ℤ◌, ℤ, FitsSigned, unsigned_abs};
ghost use Rattle.std.specs.Prelude.{List, ◌++◌, length, IfSome, Ok};
ghost use Rattle.std.specs.Int.{w64};
ghost use Rattle.apl_folds.specs.Rooms.{HaveRoom};
ghost use Rattle.apl_folds.specs.inside.Sums.{sum_of, total, magnitudes};

use crate::fold::{fold_from, fold_right};
use crate::lanes::{has_room, most};
use apl_arrays::{Lane, NumberSlice};
use apl_faults::Fault;
use apl_scalar::{Sum, wider};

/// So many numbers of a magnitude of at most 2^51 have a sum of at most 2^62.
const BLOCK: usize = 2048;

/// How many numbers are in the first block: few, since its sum is of no use where they are not small.
const FIRST: usize = 256;

/// Below this many numbers a test at each step costs less than a block.
const FEW: usize = 16;

/// The sum where it fits, and some number elsewhere.
#[inline(always)]
pub(crate) fn add(x: i64, y: i64) -> i64
    ensures { FitsSigned w64 (x +ℤ y) → result ≡ x +ℤ y }
{
    x.wrapping_add(y)
}

/// A sum with a number more, where the type has room for it.
#[inline(always)]
pub(crate) fn plus<M: Lane>(sum: M, number: i64) -> M
    ensures { FitsSigned M.width (M.value sum +ℤ number) → M.value result ≡ M.value sum +ℤ number }
{
    M::low(add(sum.wide(), number))
}

/// The sum of numbers, in a type that has room for it.
fn sum_in<L: Lane, M: Lane>(numbers: &[L]) -> M
    requires { HaveRoom M.width (L.numbers numbers.now) (length numbers.now) }
    ensures { M.value result ≡ total (L.numbers numbers.now) }
{
    let mut sum = M::low(0);
    for number in numbers {
        sum = plus(sum, number.wide());
    }
    sum
}

/// A number that is below 2^52 only where the argument's magnitude is at most 2^51.
#[inline(always)]
fn spread(number: i64) -> u64
    ensures { result < 2 ^ 52 → unsigned_abs number ≤ 2 ^ 51 }
{
    number.wrapping_add(0x8_0000_0000_0000).cast_unsigned()
}

/// The sum of the numbers, if the second result, by being below 2^52, says that they are small.
fn sum_small(numbers: &[i64]) -> (i64, u64)
    requires { length numbers.now ≤ BLOCK }
    ensures { result.1 < 2 ^ 52 → (result.0 ≡ total numbers.now) × (magnitudes numbers.now ≤ length numbers.now * 2 ^ 51) }
{
    let mut sum = 0i64;
    let mut bound = 0u64;
    for number in numbers {
        sum = add(sum, *number);
        bound = wider(bound, spread(*number));
    }
    (sum, bound)
}

/// The fold of a block and of the numbers after it, of which the fold is known, if all of it is so small that the order is all one.
fn sum_block(numbers: &[i64], known: i64) -> Option<i64>
    requires { length numbers.now ≤ BLOCK }
    ensures { IfSome result (λ all. (rest : List ℤ) → sum_of rest ≡ Ok known → sum_of (numbers.now ++ rest) ≡ Ok all) }
{
    let (sum, bound) = sum_small(numbers);
    if bound < 0x10_0000_0000_0000 && known.unsigned_abs() < 0x4000_0000_0000_0000 {
        return Some(add(known, sum));
    }
    None
}

/// The sum of one or more numbers from the right: block by block while they are small, and from then on with each step tested. But for the first, no
/// block is longer than what was summed before it.
fn sum_blocks(numbers: &[i64]) -> Result<i64, Fault>
    requires { 0 < length numbers.now }
    ensures { result ≡ sum_of numbers.now }
{
    if numbers.len() < FEW {
        return fold_right::<Sum, i64>(numbers);
    }
    let mut left = numbers.len() - 1;
    let mut all = numbers[left];
    while 0 < left {
        let summed = numbers.len() - left;
        let from = left.saturating_sub(summed.max(FIRST).min(BLOCK));
        match sum_block(&numbers[from..left], all) {
            Some(sum) => {
                all = sum;
                left = from;
            }
            None => return fold_from::<Sum, i64>(numbers, left, all),
        }
    }
    Ok(all)
}

/// The sum of one or more numbers. Those of fewer bits need no test, in a type that has room for their sum.
pub(crate) fn sum_row<L: Lane>(numbers: &[L]) -> Result<i64, Fault>
    requires { 0 < length numbers.now }
    ensures { result ≡ sum_of (L.numbers numbers.now) }
{
    if let NumberSlice::I64(numbers) = L::slice(numbers) {
        return sum_blocks(numbers);
    }
    let bound = most(numbers);
    if has_room::<i32>(bound, numbers.len()) {
        Ok(sum_in::<L, i32>(numbers).wide())
    } else if has_room::<i64>(bound, numbers.len()) {
        Ok(sum_in::<L, i64>(numbers))
    } else {
        fold_right::<Sum, L>(numbers)
    }
}
