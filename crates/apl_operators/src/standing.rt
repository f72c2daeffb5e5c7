// Numbers that stand for the elements of two arrays under a function, so that there are loops over numbers alone.
ghost use Rattle.std.specs.Prelude.{◌≡◌, ◌≤◌, IfOk, MatchBool, length, map, pos, replicate};
ghost use Rattle.apl_arrays.specs.Left.{listed};
ghost use Rattle.apl_arrays.specs.Cells.{Numbers, Characters};
ghost use Rattle.apl_arrays.specs.Numbers.{typed_items, values};
ghost use Rattle.apl_operators.specs.inside.Standing.{StandOrFail, TakesCodes, RefusesCharacters};

use apl_arrays::{Elements, Lane, NumberSlice, Typed, Wide, convert};
use apl_charset::Ch;
use apl_scalar::Dyadic;
use std::alloc::{AllocError, Global};

/// So many numbers at most are few.
pub(crate) const FEW: usize = 16;

/// Room for few numbers of each of two arrays, which takes no memory.
#[derive(Drop)]
pub(crate) struct Few {
    left: [i64; FEW],
    right: [i64; FEW],
}

impl Few {
    #[inline(always)]
    pub(crate) fn new() -> Few {
        Few {
            left: [0; FEW],
            right: [0; FEW],
        }
    }
}

/// Numbers for the elements of two arrays.
#[derive(Drop)]
pub(crate) struct StandIns<'a> {
    pub(crate) left: Wide<'a>,
    pub(crate) right: Wide<'a>,
}

/// Whether a function takes characters: then it gives what it gives for their codes.
fn takes_characters(function: Dyadic) -> bool
    ensures { MatchBool result (TakesCodes function) (RefusesCharacters function) }
{
    match function {
        Dyadic::Equal => true,
        Dyadic::NotEqual => true,
        _ => false,
    }
}

/// The codes of characters.
fn codes(alloc: Global, characters: &[Ch]) -> Result<Vec<i64>, AllocError>
    ensures { IfOk result (λ v. v.items ≡ map pos characters.now) }
{
    let mut numbers = Vec::with_capacity(alloc, characters.len())?;
    for character in characters {
        numbers.push(character.code() as u32 as i64)?;
    }
    Ok(numbers)
}

/// The codes of two texts.
fn coded(alloc: Global, a: &[Ch], b: &[Ch]) -> Result<StandIns<'static>, AllocError>
    ensures left { IfOk result (λ numbers. typed_items numbers.left ≡ map pos a.now) }
    ensures right { IfOk result (λ numbers. typed_items numbers.right ≡ map pos b.now) }
{
    let left = codes(alloc, a)?;
    let right = codes(alloc, b)?;
    Ok(StandIns {
        left: Typed::Made(left),
        right: Typed::Made(right),
    })
}

/// So many numbers for each of two arrays, each of which differs from each of the other's.
fn apart(alloc: Global, a: usize, b: usize) -> Result<StandIns<'static>, AllocError>
    ensures left { IfOk result (λ numbers. typed_items numbers.left ≡ replicate a (pos 0)) }
    ensures right { IfOk result (λ numbers. typed_items numbers.right ≡ replicate b (pos 1)) }
{
    let left = vec![in alloc; 0i64; a]?;
    let right = vec![in alloc; 1i64; b]?;
    Ok(StandIns {
        left: Typed::Made(left),
        right: Typed::Made(right),
    })
}

/// Few numbers as numbers of 64 bits, in a room.
fn written<'a, L: Lane>(numbers: &[L], room: &'a mut [i64; FEW]) -> Wide<'a>
    requires { length numbers.now ≤ FEW }
    ensures { typed_items result ≡ L.numbers numbers.now }
{
    let written = &mut room[..numbers.len()];
    convert(numbers, written);
    Typed::Lies(written)
}

/// Numbers as numbers of 64 bits: where they lie, if they are, or in a room where they are few, or else made.
fn wide<'a>(
    alloc: Global,
    numbers: NumberSlice<'a>,
    room: &'a mut [i64; FEW],
) -> Result<Wide<'a>, AllocError>
    ensures { IfOk result (λ wide. typed_items wide ≡ values numbers.entry) }
{
    if FEW < numbers.len() {
        return numbers.wide(alloc);
    }
    match numbers {
        NumberSlice::I8(raw) => Ok(written(raw, room)),
        NumberSlice::I32(raw) => Ok(written(raw, room)),
        NumberSlice::I64(raw) => Ok(Typed::Lies(raw)),
    }
}

/// What stands for numbers and the elements of another array.
fn beside_numbers<'a>(
    alloc: Global,
    function: Dyadic,
    a: NumberSlice<'a>,
    b: Elements<'a>,
    few: &'a mut Few,
) -> Result<Option<StandIns<'a>>, AllocError>
    ensures { IfOk result (λ found. StandOrFail function (Numbers (values a.entry)) (listed b.entry) found) }
{
    match b {
        Elements::Nums(b) => {
            let left = wide(alloc, a, &mut few.left)?;
            let right = wide(alloc, b, &mut few.right)?;
            Ok(Some(StandIns { left, right }))
        }
        Elements::Chars(b) => {
            if takes_characters(function) {
                Ok(Some(apart(alloc, a.len(), b.len())?))
            } else {
                Ok(None)
            }
        }
    }
}

/// What stands for characters and the elements of another array.
fn beside_characters<'a>(
    alloc: Global,
    function: Dyadic,
    a: &'a [Ch],
    b: Elements<'a>,
) -> Result<Option<StandIns<'a>>, AllocError>
    ensures { IfOk result (λ found. StandOrFail function (Characters a.now) (listed b.entry) found) }
{
    if !takes_characters(function) {
        return Ok(None);
    }
    match b {
        Elements::Nums(b) => Ok(Some(apart(alloc, a.len(), b.len())?)),
        Elements::Chars(b) => Ok(Some(coded(alloc, a, b)?)),
    }
}

/// Numbers that stand for the elements of two arrays under a function. Where there are none, each pair of elements is a domain fault.
pub(crate) fn standing<'a>(
    alloc: Global,
    function: Dyadic,
    a: Elements<'a>,
    b: Elements<'a>,
    few: &'a mut Few,
) -> Result<Option<StandIns<'a>>, AllocError>
    ensures { IfOk result (λ found. StandOrFail function (listed a.entry) (listed b.entry) found) }
{
    match a {
        Elements::Nums(a) => beside_numbers(alloc, function, a, b, few),
        Elements::Chars(a) => beside_characters(alloc, function, a, b),
    }
}
