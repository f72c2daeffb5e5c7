// Folds of rows of numbers by functions that choose one of two, four quarters at once.
ghost use Rattle.std.specs.Prelude.{◌≡◌, ◌<◌, ◌*◌, length, Ok};
ghost use Rattle.apl_folds.specs.Lines.{fold_by};

use crate::choice::Choice;
use crate::fold::{fold_from, fold_right};
use apl_arrays::Lane;
use apl_faults::Fault;

/// Below this many numbers four quarters cost more than they save.
const FEW: usize = 32;

/// The folds of four rows of as many numbers. Each goes on without the others, so that none waits for more than itself.
#[inline(never)]
fn choose_rows<C: Choice, L: Lane>(
    first: &[L],
    second: &[L],
    third: &[L],
    fourth: &[L],
) -> (L, L, L, L)
    requires some { 0 < length first.now }
    requires second { length second.now ≡ length first.now }
    requires third { length third.now ≡ length first.now }
    requires fourth { length fourth.now ≡ length first.now }
    ensures first { fold_by C.meaning (L.numbers first.now) ≡ Ok (L.value result.0) }
    ensures second { fold_by C.meaning (L.numbers second.now) ≡ Ok (L.value result.1) }
    ensures third { fold_by C.meaning (L.numbers third.now) ≡ Ok (L.value result.2) }
    ensures fourth { fold_by C.meaning (L.numbers fourth.now) ≡ Ok (L.value result.3) }
{
    let mut one = first[0];
    let mut two = second[0];
    let mut three = third[0];
    let mut four = fourth[0];
    for j in 1..first.len() {
        one = C::of(one, first[j]);
        two = C::of(two, second[j]);
        three = C::of(three, third[j]);
        four = C::of(four, fourth[j]);
    }
    (one, two, three, four)
}

/// The fold of four times as many numbers.
fn choose_quarters<C: Choice, L: Lane>(numbers: &[L], size: usize) -> L
    requires some { 0 < size }
    requires four { length numbers.now ≡ 4 * size }
    ensures { fold_by C.meaning (L.numbers numbers.now) ≡ Ok (L.value result) }
{
    let (first, after) = numbers.split_at(size);
    let (second, last) = after.split_at(size);
    let (third, fourth) = last.split_at(size);
    let (one, two, three, four) = choose_rows::<C, L>(first, second, third, fourth);
    C::of(one, C::of(two, C::of(three, four)))
}

/// The fold of one or more numbers: of many in four quarters at once, and then with the few numbers before them.
pub(crate) fn choose<C: Choice, L: Lane>(numbers: &[L]) -> Result<i64, Fault>
    requires { 0 < length numbers.now }
    ensures { result ≡ fold_by C.meaning (L.numbers numbers.now) }
{
    if numbers.len() < FEW {
        return fold_right::<C, L>(numbers);
    }
    let from = numbers.len() % 4;
    let all = choose_quarters::<C, L>(numbers.split_at(from).1, numbers.len() / 4);
    fold_from::<C, L>(numbers, from, all.wide())
}
