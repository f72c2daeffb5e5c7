// The functions that take characters: whether two elements are the same.
ghost use Rattle.std.specs.Prelude.{◌≡◌, ◌≢◌, ◌≤◌, ◌<◌, Bool, false, nat_eq, length, slice_index_or, Ok, Err, MatchOption};
ghost use Rattle.std.specs.List.{range_with_len};
ghost use Rattle.apl_arrays.specs.Answers.{Answers};
ghost use Rattle.apl_arrays.specs.Numbers.{kept_values};
ghost use Rattle.apl_arrays.specs.Results.{all_ok};
ghost use Rattle.apl_scalar.specs.Extension.{compared};
ghost use Rattle.apl_scalar.specs.Operands.{character_at, verdict, AreVerdicts};

use crate::function::Dyadic;
use apl_arrays::{NumberVec, Stop};
use apl_charset::Ch;
use apl_faults::Fault;
use std::alloc::Global;

/// What a function answers for two elements that are the same, and for two that differ.
#[derive(Clone, Copy)]
struct Verdicts {
    same: i8,
    other: i8,
}

/// What a function answers for characters, if it takes them.
fn verdicts_of(function: Dyadic) -> Option<Verdicts>
    ensures { MatchOption result ((same : Bool) → compared function same ≡ Err Fault.Domain)
        (λ v. (same : Bool) → compared function same ≡ Ok (verdict v same)) }
{
    match function {
        Dyadic::Equal => Some(Verdicts { same: 1, other: 0 }),
        Dyadic::NotEqual => Some(Verdicts { same: 0, other: 1 }),
        _ => None,
    }
}

impl Dyadic {
    /// What it answers for two elements that are not both numbers, by whether they are the same: [`Dyadic::Equal`] and [`Dyadic::NotEqual`]
    /// tell that as 1 or 0, and any other function has a domain fault.
    pub fn compared(self, same: bool) -> Result<i64, Fault>
        ensures { result ≡ compared self same }
    {
        match verdicts_of(self) {
            Some(verdicts) => Ok(i64::from(if same { verdicts.same } else { verdicts.other })),
            None => Err(Fault::Domain),
        }
    }
}

/// Writes for each character whether it is this one.
fn compare_with(one: Ch, many: &[Ch], verdicts: Verdicts, out: &mut [i8])
    requires { length out.old ≤ length many.now }
    ensures { AreVerdicts verdicts (λ k. nat_eq one (slice_index_or many.now k 0)) out.new }
{
    for i in 0..out.len() {
        out[i] = if one == many[i] {
            verdicts.same
        } else {
            verdicts.other
        };
    }
}

/// Writes for each place whether the characters there are the same.
fn compare_pairs(a: &[Ch], b: &[Ch], verdicts: Verdicts, out: &mut [i8])
    requires a { length out.old ≤ length a.now }
    requires b { length out.old ≤ length b.now }
    ensures { AreVerdicts verdicts (λ k. nat_eq (slice_index_or a.now k 0) (slice_index_or b.now k 0)) out.new }
{
    for i in 0..out.len() {
        out[i] = if a[i] == b[i] {
            verdicts.same
        } else {
            verdicts.other
        };
    }
}

/// The values of a function of two operands, one of numbers and one of characters.
pub(crate) fn mixed(alloc: Global, function: Dyadic, count: usize) -> Result<NumberVec, Stop>
    requires { 0 < count }
    ensures { Answers kept_values (all_ok (λ k. compared function false) (range_with_len 0 count)) result }
{
    match verdicts_of(function) {
        Some(verdicts) => Ok(NumberVec::I8(vec![in alloc; verdicts.other; count]?)),
        None => Err(Stop::Fault(Fault::Domain)),
    }
}

/// Writes for each place whether the characters there are the same.
fn compare(a: &[Ch], b: &[Ch], verdicts: Verdicts, out: &mut [i8])
    requires a { length a.now ≢ 1 → length a.now ≡ length out.old }
    requires b { length b.now ≢ 1 → length b.now ≡ length out.old }
    requires one { length a.now ≡ 1 → length b.now ≡ 1 → length out.old ≡ 1 }
    ensures { AreVerdicts verdicts (λ k. nat_eq (character_at a.now k) (character_at b.now k)) out.new }
{
    if let [one] = a {
        compare_with(*one, b, verdicts, out);
    } else if let [one] = b {
        compare_with(*one, a, verdicts, out);
    } else {
        compare_pairs(a, b, verdicts, out);
    }
}

/// The values of a function of two operands of characters.
pub(crate) fn dyadic_characters(
    alloc: Global,
    function: Dyadic,
    a: &[Ch],
    b: &[Ch],
    count: usize,
) -> Result<NumberVec, Stop>
    requires some { 0 < count }
    requires a { length a.now ≢ 1 → length a.now ≡ count }
    requires b { length b.now ≢ 1 → length b.now ≡ count }
    requires one { length a.now ≡ 1 → length b.now ≡ 1 → count ≡ 1 }
    ensures { Answers kept_values (all_ok (λ k. compared function (nat_eq (character_at a.now k) (character_at b.now k))) (range_with_len 0 count)) result }
{
    let Some(verdicts) = verdicts_of(function) else {
        return Err(Stop::Fault(Fault::Domain));
    };
    let mut values = vec![in alloc; 0i8; count]?;
    compare(a, b, verdicts, values.as_mut_slice());
    Ok(NumberVec::I8(values))
}
