// First places of items among others.
ghost use Rattle.std.specs.Prelude.{◌≡◌, ◌==◌, ◌≤◌, length, IfOk};
ghost use Rattle.apl_arrays.specs.Answers.{Answers, FaultsFirst};
ghost use Rattle.apl_arrays.specs.Cells.{cells_of, Characters};
ghost use Rattle.apl_arrays.specs.Checks.{demand};
ghost use Rattle.apl_arrays.specs.Left.{listed};
ghost use Rattle.apl_arrays.specs.Origins.{origin_number};
ghost use Rattle.apl_search.specs.Found.{index_of, places_from};

use crate::lookup::{codes_of, places_among};
use apl_arrays::{Array, Elements, MAX_ELEMENTS, NumberSlice, NumberVec, Origin, Ravel, Stop};
use apl_charset::Ch;
use apl_faults::Fault;
use std::alloc::{AllocError, Global};

/// For each character its first place among others, or how many these are, counted from the index origin.
fn character_places(
    alloc: Global,
    sought: &[Ch],
    among: &[Ch],
    origin: Origin,
) -> Result<Vec<i32>, AllocError>
    requires { length among.now ≤ MAX_ELEMENTS }
    ensures { IfOk result (λ v. v.items ≡ places_from (origin_number origin) (Characters among.now) (Characters sought.now)) }
{
    let among = codes_of(alloc, among)?;
    let sought = codes_of(alloc, sought)?;
    let places = places_among(
        alloc,
        NumberSlice::I32(sought.as_slice()),
        NumberSlice::I32(among.as_slice()),
        origin,
    )?;
    Ok(places)
}

/// For each item its first place among others, or how many these are, counted from the index origin.
fn places_in(
    alloc: Global,
    sought: Elements<'_>,
    among: Elements<'_>,
    origin: Origin,
) -> Result<Vec<i32>, AllocError>
    requires { length (cells_of (listed among)) ≤ MAX_ELEMENTS }
    ensures { IfOk result (λ v. v.items ≡ places_from (origin_number origin) (listed among.entry) (listed sought.entry)) }
{
    let none = (origin.number() + among.len()) as i32;
    match among {
        Elements::Nums(among) => match sought {
            Elements::Nums(sought) => places_among(alloc, sought, among, origin),
            Elements::Chars(sought) => vec![in alloc; none; sought.len()],
        },
        Elements::Chars(among) => match sought {
            Elements::Nums(sought) => vec![in alloc; none; sought.len()],
            Elements::Chars(sought) => character_places(alloc, sought, among, origin),
        },
    }
}

/// An array of one axis, or a rank fault.
fn one_axis(a: &Array) -> Result<(), Fault>
    ensures { result ≡ demand (length a.now.shape == 1) Fault.Rank }
{
    if a.rank() == 1 {
        Ok(())
    } else {
        Err(Fault::Rank)
    }
}

/// For each item of `b` its first place in the vector `a`, counted from the index origin, or the place behind the last, in the shape of `b`.
/// A character is never equal to a number.
///
/// Another count of axes of `a` than 1 is a rank fault, before memory is asked for.
pub fn index_of(alloc: Global, a: &Array, b: &Array, origin: Origin) -> Result<Array, Stop>
    ensures value { Answers (λ r. r) (index_of a.now b.now (origin_number origin)) result }
    ensures at_once { FaultsFirst (index_of a.now b.now (origin_number origin)) result }
{
    one_axis(a)?;
    let places = places_in(alloc, b.items(), a.items(), origin)?;
    Ok(b.with_ravel(alloc, Ravel::Nums(NumberVec::I32(places)))?)
}
