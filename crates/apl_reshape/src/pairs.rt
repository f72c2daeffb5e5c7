// The elements of two operands, of one type.
ghost use Rattle.std.specs.Prelude.{◌≡◌, ◌≤◌, length, pos, IfOk};
ghost use Rattle.apl_arrays.specs.Cells.{Characters, Numbers};
ghost use Rattle.apl_arrays.specs.Left.{listed};
ghost use Rattle.apl_arrays.specs.Numbers.{kept_values, values};
ghost use Rattle.apl_arrays.specs.Ravels.{items_of};
ghost use Rattle.apl_arrays.specs.Results.{ok_map};
ghost use Rattle.apl_reshape.specs.Catenate.{of_one_type};
ghost use Rattle.apl_reshape.specs.inside.Rows.{both_of, needed, rows_of, rows_of_lists, HasRows};

use crate::blocks::Rows;
use apl_arrays::{Both, Elements, NumberSlice, NumberVec, Ravel};
use apl_charset::Ch;
use apl_faults::Fault;
use std::alloc::{AllocError, Global};

/// The elements of two operands, of one type.
#[derive(Clone, Copy)]
pub(crate) enum Pair<'a> {
    Numbers(NumberSlice<'a>, NumberSlice<'a>),
    Characters(&'a [Ch], &'a [Ch]),
}

/// Numbers beside the elements of another operand.
fn beside_numbers<'a>(xs: NumberSlice<'a>, b: Elements<'a>) -> Result<Pair<'a>, Fault>
    ensures { of_one_type (Numbers (values xs.entry)) (listed b.entry) ≡ ok_map both_of result }
{
    match b {
        Elements::Nums(ys) => Ok(Pair::Numbers(xs, ys)),
        Elements::Chars(ys) => {
            if xs.is_empty() {
                Ok(Pair::Characters(&[], ys))
            } else if ys.is_empty() {
                Ok(Pair::Numbers(xs, NumberSlice::I8(&[])))
            } else {
                Err(Fault::Domain)
            }
        }
    }
}

/// Characters beside the elements of another operand.
fn beside_characters<'a>(xs: &'a [Ch], b: Elements<'a>) -> Result<Pair<'a>, Fault>
    ensures { of_one_type (Characters xs.now) (listed b.entry) ≡ ok_map both_of result }
{
    match b {
        Elements::Chars(ys) => Ok(Pair::Characters(xs, ys)),
        Elements::Nums(ys) => {
            if xs.is_empty() {
                Ok(Pair::Numbers(NumberSlice::I8(&[]), ys))
            } else if ys.is_empty() {
                Ok(Pair::Characters(xs, &[]))
            } else {
                Err(Fault::Domain)
            }
        }
    }
}

/// The elements of two operands. An empty one takes the other's type, else two types are a domain fault.
pub(crate) fn paired<'a>(a: Elements<'a>, b: Elements<'a>) -> Result<Pair<'a>, Fault>
    ensures { of_one_type (listed a.entry) (listed b.entry) ≡ ok_map both_of result }
{
    match a {
        Elements::Nums(xs) => beside_numbers(xs, b),
        Elements::Chars(xs) => beside_characters(xs, b),
    }
}

/// Rows of numbers, in the wider type of the two.
fn numbers_joined(
    alloc: Global,
    rows: Rows,
    xs: NumberSlice<'_>,
    ys: NumberSlice<'_>,
) -> Result<NumberVec, AllocError>
    requires xs { needed rows.x rows.count ≤ length (values xs) }
    requires ys { needed rows.y rows.count ≤ length (values ys) }
    ensures { IfOk result (λ v. kept_values v ≡ rows_of_lists rows.x rows.y rows.count (values xs.entry) (values ys.entry) (pos 0)) }
{
    match Both::new(alloc, xs, ys)? {
        Both::I8(xs, ys) => {
            let joined = rows.join(alloc, xs.as_slice(), ys.as_slice())?;
            Ok(NumberVec::I8(joined))
        }
        Both::I32(xs, ys) => {
            let joined = rows.join(alloc, xs.as_slice(), ys.as_slice())?;
            Ok(NumberVec::I32(joined))
        }
        Both::I64(xs, ys) => {
            let joined = rows.join(alloc, xs.as_slice(), ys.as_slice())?;
            Ok(NumberVec::I64(joined))
        }
    }
}

/// Rows of elements.
pub(crate) fn ravel_joined(alloc: Global, rows: Rows, pair: Pair<'_>) -> Result<Ravel, AllocError>
    requires { HasRows rows.x rows.y rows.count (both_of pair) }
    ensures { IfOk result (λ r. items_of r ≡ rows_of rows.x rows.y rows.count (both_of pair.entry)) }
{
    match pair {
        Pair::Numbers(xs, ys) => Ok(Ravel::Nums(numbers_joined(alloc, rows, xs, ys)?)),
        Pair::Characters(xs, ys) => Ok(Ravel::Chars(rows.join(alloc, xs, ys)?)),
    }
}
