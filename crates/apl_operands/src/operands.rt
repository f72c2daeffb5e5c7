//! Operands of instructions.
ghost use Rattle.std.specs.Prelude.{◌≡◌, ◌≤◌, ◌<◌, ◌++◌, IfNone, IfOk, IfSome, length, reverse, take, List, [], ◌∷◌, Option, Some, option_copied, option_map};
ghost use Rattle.apl_code.specs.declared.instr.Source.{Source};
ghost use Rattle.apl_operands.specs.Operands.{Offers, fetched_from, fetched_one, unfetched_one, unfetched};
ghost use Rattle.apl_operands.specs.Operands.{EndsInValue, FetchesFirst, LeavesBeneath, PassesLast, operand_of, only, one_value};
ghost use Rattle.apl_machine_state.specs.Items.{constant_at};
ghost use Rattle.apl_machine_state.specs.Outcomes.{taken_of, taken_one, taken_two, taken_three};
ghost use Rattle.apl_arrays.specs.Cells.{Arr};
ghost use Rattle.apl_primitives.specs.Taken.{One, Two, as_taken};

use apl_arrays::Array;
use apl_code::Source;
use apl_machine_state::{Operand, Slots};
use apl_primitives::Arguments;
use std::alloc::AllocError;

/// An operand where it lies: a constant of the line, or on the operand stack.
#[derive(Clone, Copy)]
pub enum Held<'a> {
    Value(&'a Array),
    Slots(&'a Slots),
}

/// Where instructions take their operands from: the constants of the line, and the operand stack,
/// its top last.
#[derive(Clone, Copy)]
pub struct Operands<'a> {
    pub constants: &'a [Array],
    pub stack: &'a [Operand],
}

/// An operand, and what is left beneath it.
#[inline(always)]
pub fn fetch(operands: Operands<'_>, source: Source) -> (Held<'_>, Operands<'_>)
    requires { Offers operands (Some source ∷ []) }
    ensures held { operand_of result.0 ≡ fetched_one operands.entry.constants.now source (reverse operands.entry.stack.now) }
    ensures constants { result.1.constants.now ≡ operands.entry.constants.now }
    ensures below { reverse result.1.stack.now ≡ unfetched_one source (reverse operands.entry.stack.now) }
    ensures there { (more : List (Option Source)) → Offers operands.entry (Some source ∷ more) → Offers result.1 more }
{
    match source {
        Source::Constant(k) => (Held::Value(&operands.constants[k]), operands),
        Source::Stack => {
            let left = operands.stack.len() - 1;
            let below = Operands {
                constants: operands.constants,
                stack: &operands.stack[..left],
            };
            match &operands.stack[left] {
                Operand::Value(array) => (Held::Value(array), below),
                Operand::Slots(slots) => (Held::Slots(slots), below),
            }
        }
    }
}

/// The one operand of an instruction that has one.
fn only(sources: &[Option<Source>]) -> Option<Source>
    ensures { result ≡ only sources.now }
{
    match sources {
        [Some(source)] => Some(*source),
        _ => None,
    }
}

/// The value that an instruction takes, if it takes one value alone.
pub fn one_value<'a>(sources: &[Option<Source>], operands: Operands<'a>) -> Option<&'a Array>
    requires { Offers operands sources.now }
    ensures { option_copied result ≡ one_value (fetched_from operands.entry sources.now) }
{
    let source = only(sources)?;
    match fetch(operands, source).0 {
        Held::Value(array) => Some(array),
        Held::Slots(_) => None,
    }
}

/// An operand, if an instruction takes one here, and what is left beneath it.
#[inline(always)]
fn next(operands: Operands<'_>, source: Option<Source>) -> (Option<Held<'_>>, Operands<'_>)
    requires { Offers operands (source ∷ []) }
    ensures held { FetchesFirst operands.entry source result.0 result.1 }
    ensures there { (more : List (Option Source)) → Offers operands.entry (source ∷ more) → Offers result.1 more }
{
    match source {
        Some(source) => {
            let (held, rest) = fetch(operands, source);
            (Some(held), rest)
        }
        None => (None, operands),
    }
}

/// What a phrase takes that takes this alone.
#[inline(always)]
fn one_argument(b: Option<Held<'_>>) -> Arguments<'_>
    ensures { as_taken result ≡ taken_one (option_map operand_of b.entry) }
{
    match b {
        Some(Held::Value(b)) => Arguments::One(b),
        _ => Arguments::Other,
    }
}

/// What a phrase takes that takes these two, from the left.
#[inline(always)]
fn two_arguments<'a>(first: Option<Held<'a>>, second: Option<Held<'a>>) -> Arguments<'a>
    ensures { as_taken result ≡ taken_two (option_map operand_of first.entry) (option_map operand_of second.entry) }
{
    match (first, second) {
        (Some(Held::Value(a)), Some(Held::Value(b))) => Arguments::Two(a, b),
        (Some(Held::Slots(slots)), Some(Held::Value(b))) => {
            Arguments::ListAndOne(slots.as_slice(), b)
        }
        (Some(Held::Value(b)), Some(Held::Slots(slots))) => {
            Arguments::Selected(b, slots.as_slice())
        }
        _ => Arguments::Other,
    }
}

/// What a phrase takes that takes these three, from the left.
#[inline(always)]
fn three_arguments<'a>(
    first: Option<Held<'a>>,
    second: Option<Held<'a>>,
    third: Option<Held<'a>>,
) -> Arguments<'a>
    ensures { as_taken result ≡ taken_three (option_map operand_of first.entry) (option_map operand_of second.entry) (option_map operand_of third.entry) }
{
    match (first, second, third) {
        (Some(Held::Value(a)), Some(Held::Slots(axis)), Some(Held::Value(b))) => {
            Arguments::AlongTwo(a, axis.as_slice(), b)
        }
        _ => Arguments::Other,
    }
}

/// The value that an instruction takes from this place alone, where a value lies in it.
#[inline(always)]
pub fn value_from<'a>(operands: Operands<'a>, source: Source) -> Option<&'a Array>
    requires { Offers operands (Some source ∷ []) }
    ensures is { IfSome result (λ b. taken_of (fetched_from operands.entry (Some source ∷ [])) ≡ One b.now) }
    ensures none { IfNone result ((b : Arr) → ¬ (taken_of (fetched_from operands.entry (Some source ∷ [])) ≡ One b)) }
{
    let (Held::Value(b), _beneath) = fetch(operands, source) else {
        return None;
    };
    Some(b)
}

/// The values that an instruction takes from these two places, the first of them further left, where values lie in both.
#[inline(always)]
pub fn two_values<'a>(
    operands: Operands<'a>,
    first: Source,
    second: Source,
) -> Option<(&'a Array, &'a Array)>
    requires { Offers operands (Some first ∷ Some second ∷ []) }
    ensures is { IfSome result (λ r. taken_of (fetched_from operands.entry (Some first ∷ Some second ∷ [])) ≡ Two r.0.now r.1.now) }
    ensures none { IfNone result ((a b : Arr) → ¬ (taken_of (fetched_from operands.entry (Some first ∷ Some second ∷ [])) ≡ Two a b)) }
{
    let (Held::Value(a), rest) = fetch(operands, first) else {
        return None;
    };
    let (Held::Value(b), _beneath) = fetch(rest, second) else {
        return None;
    };
    Some((a, b))
}

/// The values and index lists that an instruction takes: what stands further left lies nearer the top.
#[tactic(auto, using(crate::proofs::Fetching::first_there, crate::proofs::Fetching::too_few, crate::proofs::Fetching::too_many))]
#[inline(always)]
pub fn arguments<'a>(sources: &[Option<Source>], operands: Operands<'a>) -> Arguments<'a>
    requires { Offers operands sources.now }
    ensures { as_taken result ≡ taken_of (fetched_from operands.entry sources.now) }
{
    match sources {
        [first] => one_argument(next(operands, *first).0),
        [first, second] => {
            let (first, rest) = next(operands, *first);
            two_arguments(first, next(rest, *second).0)
        }
        [first, second, third] => {
            let (first, rest) = next(operands, *first);
            let (second, rest) = next(rest, *second);
            three_arguments(first, second, next(rest, *third).0)
        }
        _ => Arguments::Other,
    }
}

/// How many operands are left beneath this one, where there are so many.
#[inline(always)]
fn left_beneath(source: Option<Source>, left: usize, stack: &[Operand]) -> usize
    requires { left ≤ length stack.now }
    ensures within { result ≤ length stack.now }
    ensures left { LeavesBeneath source stack.now left result }
{
    let _ = stack;
    let Some(source) = source else {
        return left;
    };
    match source {
        Source::Stack => left.saturating_sub(1),
        Source::Constant(_) => left,
    }
}

/// How many operands an instruction leaves beneath those that it takes.
#[inline(always)]
pub fn left(sources: &[Option<Source>], stack: &[Operand]) -> usize
    ensures within { result ≤ length stack.now }
    ensures left { unfetched sources.now (reverse stack.now) ≡ reverse (take result stack.now) }
{
    let mut left = stack.len();
    for source in sources {
        left = left_beneath(*source, left, stack);
    }
    left
}

/// The same of all operands of an instruction, which knows how many of them it takes from the stack.
#[inline(always)]
pub fn left_of(arguments: &apl_code::Arguments, stack: &[Operand]) -> usize
    ensures within { result ≤ length stack.now }
    ensures left { unfetched arguments.now (reverse stack.now) ≡ reverse (take result stack.now) }
{
    stack.len().saturating_sub(arguments.taken())
}

/// What a phrase gives.
#[derive(Drop)]
pub enum Given {
    /// This.
    New(Operand),
    /// An operand that lies on the stack, as it is.
    Stays,
}

/// A copy of a constant of the line.
fn constant(operands: Operands<'_>, k: usize) -> Result<Array, AllocError>
    requires { k < length operands.constants.now }
    ensures { IfOk result (λ array. array ≡ constant_at operands.entry.constants.now k) }
{
    operands.constants[k].copy()
}

/// Where the last operand of an instruction lies, which is a value, and where the others lie.
#[inline(always)]
fn last_source<'s>(
    sources: &'s [Option<Source>],
    operands: Operands<'_>,
) -> (Source, &'s [Option<Source>])
    requires { EndsInValue (fetched_from operands sources.now) }
    ensures { sources.now ≡ result.1.now ++ Some result.0 ∷ [] }
{
    let _ = operands;
    let Some((last, others)) = sources.split_last() else {
        unreachable!()
    };
    let Some(last) = last else { unreachable!() };
    (*last, others)
}

/// How many operands are left where the value of an instruction's last operand stays on the stack: up to that value. There is none where it is
/// a constant of the line.
#[inline(always)]
pub fn left_with_last(sources: &[Option<Source>], operands: Operands<'_>) -> Option<usize>
    requires { EndsInValue (fetched_from operands sources.now) }
    ensures within { IfSome result (λ left. left ≤ length operands.entry.stack.now) }
    ensures value { IfSome result (PassesLast operands.entry sources.now Given.Stays) }
    ensures none { IfNone result ((others : List (Option Source)) → ¬ (sources.now ≡ others ++ Some Source.Stack ∷ [])) }
{
    let (last, others) = last_source(sources, operands);
    match last {
        Source::Stack => Some(left(others, operands.stack)),
        Source::Constant(_) => None,
    }
}

/// The value of the last operand, and how many operands are left: up to that value where it stays on the stack, and beneath
/// those that the instruction takes where it is new.
pub fn last_operand(
    sources: &[Option<Source>],
    operands: Operands<'_>,
) -> Result<(Given, usize), AllocError>
    requires there { Offers operands sources.now }
    requires value { EndsInValue (fetched_from operands sources.now) }
    ensures within { IfOk result (λ r. r.1 ≤ length operands.entry.stack.now) }
    ensures value { IfOk result (λ r. PassesLast operands.entry sources.now r.0 r.1) }
{
    let (last, others) = last_source(sources, operands);
    let left = left(others, operands.stack);
    match last {
        Source::Stack => Ok((Given::Stays, left)),
        Source::Constant(k) => {
            let value = constant(operands, k)?;
            Ok((Given::New(Operand::Value(value)), left))
        }
    }
}
