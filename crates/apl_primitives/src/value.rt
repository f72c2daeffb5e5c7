// The values of phrases.
ghost use Rattle.std.specs.Prelude.{◌≡◌, ℕ, IfNone, IfSome, Ok};
ghost use Rattle.apl_arrays.specs.declared.cell.Cell.TheVariants.{Num};
ghost use Rattle.apl_arrays.specs.Answers.{Answers};
ghost use Rattle.apl_arrays.specs.Origins.{origin_number};
ghost use Rattle.apl_arrays.specs.Simple.{single};
ghost use Rattle.apl_scalar.specs.Extension.{HasNoNumber};
ghost use Rattle.apl_primitives.specs.Tables.{monadic_of, dyadic_of};
ghost use Rattle.apl_primitives.specs.Taken.{as_taken};
ghost use Rattle.apl_primitives.specs.Values.{by_axis_and_one, by_axis_and_two, by_index_list, by_one, by_two, of_one};
ghost use Rattle.apl_primitives.specs.Values.{phrase_value, scalar_or_structural1, scalar_or_structural2};

use crate::arguments::Arguments;
use crate::operators::{derived, inner_by, outer_by, own_axis};
use crate::table::{dyadic_of, monadic_of};
use apl_arrays::{Along, Array, Origin, Stop};
use apl_code::{Function, Row};
use apl_faults::Fault;
use apl_format::format1;
use apl_scalar::{dyadic, monadic};
use apl_select::index;
use apl_struct::{structural1, structural2};
use apl_symbols::Primitive;
use std::alloc::Global;

/// A scalar function of one array, where the primitive has one, and else one of structure.
fn scalar_or_structural1(
    alloc: Global,
    function: Primitive,
    b: &Array,
    origin: Origin,
) -> Result<Array, Stop>
    ensures { Answers (λ r. r) (scalar_or_structural1 (monadic_of function) function b.now (origin_number origin)) result }
{
    match monadic_of(function) {
        Some(function) => monadic(alloc, function, b),
        None => structural1(alloc, function, None, b, origin),
    }
}

/// The same of two arrays.
fn scalar_or_structural2(
    alloc: Global,
    function: Primitive,
    a: &Array,
    b: &Array,
    origin: Origin,
) -> Result<Array, Stop>
    ensures { Answers (λ r. r) (scalar_or_structural2 (dyadic_of function) function a.now b.now (origin_number origin)) result }
{
    match dyadic_of(function) {
        Some(function) => dyadic(alloc, function, a, b),
        None => structural2(alloc, function, None, a, b, origin),
    }
}

/// `F B`.
fn of_one(alloc: Global, function: Primitive, b: &Array, origin: Origin) -> Result<Array, Stop>
    ensures { Answers (λ r. r) (of_one function b.now (origin_number origin)) result }
{
    match function {
        Primitive::Format => format1(alloc, b),
        _ => scalar_or_structural1(alloc, function, b, origin),
    }
}

/// The number that a primitive scalar function of two numbers gives, where it has a value there. Other arrays and primitives give none.
#[inline(always)]
pub fn number_of_two(function: Primitive, a: &Array, b: &Array) -> Option<i64>
    ensures some { IfSome result (λ z. (origin : ℕ) → by_two (Row.Dyadic (Function.Primitive function)) a.now b.now origin ≡ Ok (single (Num z))) }
    ensures none { IfNone result (IfSome (dyadic_of function) (λ g. HasNoNumber g a.now b.now)) }
{
    apl_scalar::number_of_two(dyadic_of(function)?, a, b)
}

/// A row that takes one value.
fn by_one(alloc: Global, row: &Row, b: &Array, origin: Origin) -> Result<Array, Stop>
    ensures { Answers (λ r. r) (by_one row.now b.now (origin_number origin)) result }
{
    match *row {
        Row::Group => Ok(b.copy()?),
        Row::Monadic(Function::Primitive(function)) => of_one(alloc, function, b, origin),
        Row::Reduce(Function::Primitive(function), operator) => {
            derived(
                alloc,
                operator,
                dyadic_of(function),
                own_axis(operator),
                b,
                origin,
            )
        }
        _ => Err(Stop::Fault(Fault::Syntax)),
    }
}

/// A row that takes two values.
#[inline(always)]
fn by_two(alloc: Global, row: &Row, a: &Array, b: &Array, origin: Origin) -> Result<Array, Stop>
    ensures { Answers (λ r. r) (by_two row.now a.now b.now (origin_number origin)) result }
{
    match *row {
        Row::Dyadic(Function::Primitive(function)) => {
            scalar_or_structural2(alloc, function, a, b, origin)
        }
        Row::Inner(Function::Primitive(first), Function::Primitive(second)) => {
            inner_by(alloc, dyadic_of(first), dyadic_of(second), a, b)
        }
        Row::Outer(Function::Primitive(function)) => outer_by(alloc, dyadic_of(function), a, b),
        _ => Err(Stop::Fault(Fault::Syntax)),
    }
}

/// A row that takes an axis and a value.
#[tactic(auto, using(crate::proofs::Axes::derived_named))]
fn by_axis_and_one(
    alloc: Global,
    row: &Row,
    axis: &[Option<Array>],
    b: &Array,
    origin: Origin,
) -> Result<Array, Stop>
    ensures { Answers (λ r. r) (by_axis_and_one row.now axis.now b.now (origin_number origin)) result }
{
    match *row {
        Row::MonadicAxis(Function::Primitive(function)) => {
            structural1(alloc, function, Some(axis), b, origin)
        }
        Row::ReduceAxis(Function::Primitive(function), operator) => {
            derived(
                alloc,
                operator,
                dyadic_of(function),
                Along::Named(axis),
                b,
                origin,
            )
        }
        _ => Err(Stop::Fault(Fault::Syntax)),
    }
}

/// A row that takes a value, an axis and a value.
fn by_axis_and_two(
    alloc: Global,
    row: &Row,
    axis: &[Option<Array>],
    a: &Array,
    b: &Array,
    origin: Origin,
) -> Result<Array, Stop>
    ensures { Answers (λ r. r) (by_axis_and_two row.now axis.now a.now b.now (origin_number origin)) result }
{
    match *row {
        Row::DyadicAxis(Function::Primitive(function)) => {
            structural2(alloc, function, Some(axis), a, b, origin)
        }
        _ => Err(Stop::Fault(Fault::Syntax)),
    }
}

/// A row that takes a value and an index list.
fn by_index_list(
    alloc: Global,
    row: &Row,
    b: &Array,
    slots: &[Option<Array>],
    origin: Origin,
) -> Result<Array, Stop>
    ensures { Answers (λ r. r) (by_index_list row.now b.now slots.now (origin_number origin)) result }
{
    match *row {
        Row::Select => index(alloc, b, slots, origin),
        _ => Err(Stop::Fault(Fault::Syntax)),
    }
}

/// The value that a phrase of this row gives from what it takes, where the index origin is this.
///
/// A row without a meaning is a syntax fault, and so are a function without the wanted valence, an axis of a function that takes none, and an
/// operator beside anything but a scalar function of two arrays. Every other fault is the function's own.
#[inline(always)]
pub fn phrase_value(
    alloc: Global,
    row: &Row,
    arguments: Arguments<'_>,
    origin: Origin,
) -> Result<Array, Stop>
    ensures { Answers (λ r. r) (phrase_value row.now (as_taken arguments.entry) (origin_number origin)) result }
{
    match arguments {
        Arguments::One(b) => by_one(alloc, row, b, origin),
        Arguments::Two(a, b) => by_two(alloc, row, a, b, origin),
        Arguments::ListAndOne(axis, b) => by_axis_and_one(alloc, row, axis, b, origin),
        Arguments::AlongTwo(a, axis, b) => by_axis_and_two(alloc, row, axis, a, b, origin),
        Arguments::Selected(b, slots) => by_index_list(alloc, row, b, slots, origin),
        Arguments::Other => Err(Stop::Fault(Fault::Syntax)),
    }
}
