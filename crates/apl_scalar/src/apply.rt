// Scalar functions of arrays.
ghost use Rattle.std.specs.Prelude.{◌≡◌, ◌<◌, length, cond, true, false, slice_index_or, pos, IfNone, IfSome, IsSome, Ok};
ghost use Rattle.std.specs.List.{range_with_len};
ghost use Rattle.apl_arrays.specs.Answers.{Answers, FaultsFirst, HadMemory};
ghost use Rattle.apl_arrays.specs.declared.cell.Cell.TheVariants.{Num};
ghost use Rattle.apl_arrays.specs.Cells.{cell_at, Numbers};
ghost use Rattle.apl_arrays.specs.Index.{indices};
ghost use Rattle.apl_arrays.specs.Numbers.{kept_values, values};
ghost use Rattle.apl_arrays.specs.Results.{all_ok, ok_map};
ghost use Rattle.apl_arrays.specs.Simple.{number_of_scalar, single};
ghost use Rattle.apl_scalar.specs.Functions.{monadic_of, dyadic_of};
ghost use Rattle.apl_arrays.specs.Checks.{is_single};
ghost use Rattle.apl_scalar.specs.Extension.{extended, monadic_at, values_in, numbers_in, monadic, dyadic, HasNoNumber};
ghost use Rattle.apl_scalar.specs.Operands.{number_at, shown, values_of, Covers, Shows};

use crate::characters::{dyadic_characters, mixed};
use crate::dispatch::ByFunction;
use crate::function::{Dyadic, Monadic, Scalar};
use crate::operand::Operand;
use crate::values::Places;
use apl_arrays::{Array, Elements, NumberSlice, NumberVec, Ravel, Stop};
use apl_faults::Fault;
use std::alloc::Global;

/// Two numbers, to which a function is applied.
#[derive(Clone, Copy)]
struct Pair {
    x: i64,
    y: i64,
}

impl ByFunction for Pair {
    type Output = Result<i64, Fault>;

    ghost can = { λ _ f. Unit {0} };

    ghost gives = { λ s f result. result ≡ f s.x s.y };

    #[inline(always)]
    fn with<F: Scalar>(self) -> Result<i64, Fault> {
        F::apply(self.x, self.y)
    }
}

/// The value of a function of two numbers, or its fault.
#[inline(always)]
fn dyadic_number(function: Dyadic, x: i64, y: i64) -> Result<i64, Fault>
    ensures { result ≡ dyadic_of function x y }
{
    function.apply(Pair { x, y })
}

/// The number that a function of two numbers gives, where it has a value there. Other arrays give none.
#[inline(always)]
pub fn number_of_two(function: Dyadic, a: &Array, b: &Array) -> Option<i64>
    ensures some { IfSome result (λ z. dyadic function a.now b.now ≡ Ok (single (Num z))) }
    ensures none { IfNone result (HasNoNumber function a.now b.now) }
{
    let x = a.as_number()?;
    let y = b.as_number()?;
    match dyadic_number(function, x, y) {
        Ok(number) => Some(number),
        Err(_) => None,
    }
}

/// The value of a function of one number, or its fault.
#[inline]
fn monadic_number(function: Monadic, y: i64) -> Result<i64, Fault>
    ensures { result ≡ monadic_of function y }
{
    function.apply(Pair { x: 0, y })
}

/// The values of a function of one array in ravel order.
fn monadic_values(alloc: Global, function: Monadic, b: &Array) -> Result<NumberVec, Stop>
    ensures { Answers kept_values (all_ok (λ i. monadic_at function (cell_at b.now i)) (indices b.now.shape)) result }
{
    let items = b.items();
    match items {
        Elements::Nums(numbers) => function.of_numbers(alloc, numbers),
        Elements::Chars(_) => {
            if items.is_empty() {
                Ok(NumberVec::I8(Vec::new(alloc)))
            } else {
                Err(Stop::Fault(Fault::Domain))
            }
        }
    }
}

/// The numbers of an operand, of which a single one serves at each place.
#[inline]
fn operand_of(numbers: NumberSlice<'_>) -> Operand<'_>
    ensures { Shows (shown result) (Numbers (values numbers.entry)) }
{
    match numbers.only() {
        Some(number) => Operand::One(number),
        None => Operand::Many(numbers),
    }
}

/// Whether the result has the second operand's shape, where it may have either's.
fn takes_second(a: &[usize], a_single: bool, b: &[usize], b_single: bool) -> Result<bool, Fault>
    requires a_single { a_single ≡ is_single a.now }
    requires b_single { b_single ≡ is_single b.now }
    ensures { extended a.now b.now ≡ ok_map (λ second. cond second b.now a.now) result }
{
    if a_single {
        Ok(!b_single || a.len() < b.len())
    } else if b_single {
        Ok(false)
    } else if a.len() != b.len() {
        Err(Fault::Rank)
    } else if a == b {
        Ok(false)
    } else {
        Err(Fault::Length)
    }
}

/// The values in the order of the result's index lists, where `like` has the result's shape.
fn dyadic_values(
    alloc: Global,
    function: Dyadic,
    like: &Array,
    a: &Array,
    b: &Array,
) -> Result<NumberVec, Stop>
    requires a_fits { is_single a.now.shape ≡ false → a.now.shape ≡ like.now.shape }
    requires b_fits { is_single b.now.shape ≡ false → b.now.shape ≡ like.now.shape }
    requires both { is_single a.now.shape ≡ true → is_single b.now.shape ≡ true → is_single like.now.shape ≡ true }
    ensures { Answers kept_values (values_in function a.now b.now like.now.shape) result }
{
    let count = like.items().len();
    if count == 0 {
        return Ok(NumberVec::I8(Vec::new(alloc)));
    }
    match a.items() {
        Elements::Nums(x) => match b.items() {
            Elements::Nums(y) => function.at_places(&Places {
                alloc,
                a: operand_of(x),
                b: operand_of(y),
                count,
            }),
            Elements::Chars(_) => mixed(alloc, function, count),
        },
        Elements::Chars(x) => match b.items() {
            Elements::Nums(_) => mixed(alloc, function, count),
            Elements::Chars(y) => dyadic_characters(alloc, function, x, y, count),
        },
    }
}

/// A function of two arrays in the shape of the one that has the result's.
fn shaped(
    alloc: Global,
    function: Dyadic,
    like: &Array,
    a: &Array,
    b: &Array,
) -> Result<Array, Stop>
    requires a_fits { is_single a.now.shape ≡ false → a.now.shape ≡ like.now.shape }
    requires b_fits { is_single b.now.shape ≡ false → b.now.shape ≡ like.now.shape }
    requires both { is_single a.now.shape ≡ true → is_single b.now.shape ≡ true → is_single like.now.shape ≡ true }
    ensures { Answers (λ r. r) (ok_map (numbers_in like.now.shape) (values_in function a.now b.now like.now.shape)) result }
{
    let numbers = dyadic_values(alloc, function, like, a, b)?;
    Ok(like.with_ravel(alloc, Ravel::Nums(numbers))?)
}

/// A scalar function of one array, element by element.
#[inline(never)]
fn monadic_array(alloc: Global, function: Monadic, b: &Array) -> Result<Array, Stop>
    ensures { Answers (λ r. r) (monadic function b.now) result }
{
    let numbers = monadic_values(alloc, function, b)?;
    Ok(b.with_ravel(alloc, Ravel::Nums(numbers))?)
}

/// A scalar function of one array.
///
/// Each value is a number, in the shape of the array. A character is a domain fault, and so is a number that has no value. A value that
/// overflows 64 bits is a limit fault. The first fault in ravel order decides. For a number no memory is asked for.
pub fn monadic(alloc: Global, function: Monadic, b: &Array) -> Result<Array, Stop>
    ensures value { Answers (λ r. r) (monadic function b.now) result }
    ensures number { IsSome (number_of_scalar b.now) → HadMemory result }
{
    match b.as_number() {
        Some(y) => Ok(Array::number(monadic_number(function, y)?)),
        None => monadic_array(alloc, function, b),
    }
}

/// A scalar function of two arrays, element by element.
#[inline(never)]
fn dyadic_arrays(alloc: Global, function: Dyadic, a: &Array, b: &Array) -> Result<Array, Stop>
    ensures value { Answers (λ r. r) (dyadic function a.now b.now) result }
    ensures at_once { FaultsFirst (extended a.now.shape b.now.shape) result }
{
    let a_single = a.items().len() == 1;
    let b_single = b.items().len() == 1;
    match takes_second(a.shape(), a_single, b.shape(), b_single) {
        Ok(true) => shaped(alloc, function, b, a, b),
        Ok(false) => shaped(alloc, function, a, a, b),
        Err(fault) => Err(Stop::Fault(fault)),
    }
}

/// A scalar function of two arrays.
///
/// An operand of one element extends over the other. Else unequal ranks are a rank fault, then unequal shapes a length fault, both before
/// memory is asked for. Then the first fault in ravel order decides: a character is a domain fault but for [`Dyadic::Equal`] and
/// [`Dyadic::NotEqual`], and so are numbers that have no value. A value that overflows 64 bits is a limit fault. Where both have one element,
/// the result has the shape of the greater rank. An empty result has no fault. For two numbers no memory is asked for.
pub fn dyadic(alloc: Global, function: Dyadic, a: &Array, b: &Array) -> Result<Array, Stop>
    ensures value { Answers (λ r. r) (dyadic function a.now b.now) result }
    ensures at_once { FaultsFirst (extended a.now.shape b.now.shape) result }
    ensures numbers { IsSome (number_of_scalar a.now) → IsSome (number_of_scalar b.now) → HadMemory result }
{
    let Some(x) = a.as_number() else {
        return dyadic_arrays(alloc, function, a, b);
    };
    let Some(y) = b.as_number() else {
        return dyadic_arrays(alloc, function, a, b);
    };
    Ok(Array::number(dyadic_number(function, x, y)?))
}
