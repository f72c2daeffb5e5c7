// Zeros and ones, and the places that they choose on an axis.
ghost use Rattle.std.specs.Prelude.{◌≡◌, ◌<◌, ◌≤◌, ◌==◌, ◌||◌, length, pos, slice_index_or, count_by, IfOk, Ok, true};
ghost use Rattle.std.specs.List.{list_all};
ghost use Rattle.apl_arrays.specs.Cells.{cells_of};
ghost use Rattle.apl_arrays.specs.Checks.{demand};
ghost use Rattle.apl_arrays.specs.Left.{listed};
ghost use Rattle.apl_arrays.specs.Numbers.{values};
ghost use Rattle.apl_arrays.specs.Results.{ok_map};
ghost use Rattle.apl_select.specs.Compress.{bits_of, common_count, is_bit, is_one, kept, ones, spread};
ghost use Rattle.apl_select.specs.Lined.{place_served};

use apl_arrays::{Elements, Lane, MAX_ELEMENTS, NumberSlice, numbers_in};
use apl_faults::Fault;
use std::alloc::{AllocError, Global};

/// Whether a number is 1.
#[inline(always)]
fn is_one(number: i64) -> bool
    ensures { result ≡ is_one number }
{
    number == 1
}

/// Whether the number at a place is 1.
#[inline(always)]
fn is_one_at<L: Lane>(numbers: &[L], place: usize) -> bool
    requires { place < length numbers.now }
    ensures { result ≡ is_one (slice_index_or (L.numbers numbers.now) place (pos 0)) }
{
    is_one(numbers[place].wide())
}

/// Whether a number is 0 or 1.
#[inline(always)]
fn is_bit(number: i64) -> bool
    ensures { result ≡ is_bit number }
{
    number == 0 || number == 1
}

/// Whether all numbers are 0 or 1. There is no branch in the loop, so that many are looked at at once.
fn all_are_bits<L: Lane>(numbers: &[L]) -> bool
    ensures { result ≡ list_all is_bit (L.numbers numbers.now) }
{
    let mut all = true;
    for number in numbers {
        all &= is_bit(number.wide());
    }
    all
}

/// The same of numbers of any type.
fn are_bits(numbers: NumberSlice<'_>) -> bool
    ensures { result ≡ list_all is_bit (values numbers.entry) }
{
    match numbers {
        NumberSlice::I8(numbers) => all_are_bits(numbers),
        NumberSlice::I32(numbers) => all_are_bits(numbers),
        NumberSlice::I64(numbers) => all_are_bits(numbers),
    }
}

/// The elements, which are 0 or 1 each. Anything else is a domain fault.
pub(crate) fn bits_in(items: Elements<'_>) -> Result<NumberSlice<'_>, Fault>
    ensures value { bits_of (listed items.entry) ≡ ok_map values result }
    ensures bits { IfOk result (λ bits. list_all is_bit (values bits) ≡ true) }
{
    let numbers = numbers_in(items)?;
    if are_bits(numbers) {
        Ok(numbers)
    } else {
        Err(Fault::Domain)
    }
}

/// How many numbers are looked at at once.
const BLOCK: usize = 128;

/// How many numbers of a block are 1. They are counted in a byte, so that many are at once.
#[inline(always)]
fn ones_in_block<L: Lane>(block: &[L]) -> u8
    requires { length block.now ≤ BLOCK }
    ensures { result ≡ count_by is_one (L.numbers block.now) }
{
    let mut count = 0u8;
    for number in block {
        count += u8::from(is_one(number.wide()));
    }
    count
}

/// How many numbers are 1.
pub(crate) fn count_ones<L: Lane>(numbers: &[L]) -> usize
    requires { length numbers.now ≤ MAX_ELEMENTS }
    ensures { result ≡ count_by is_one (L.numbers numbers.now) }
{
    let mut count = 0usize;
    let mut rest = numbers;
    while rest.len() > BLOCK {
        let (block, others) = rest.split_at(BLOCK);
        count += usize::from(ones_in_block(block));
        rest = others;
    }
    count + usize::from(ones_in_block(rest))
}

/// How many elements are 1. No character is.
pub(crate) fn ones(items: Elements<'_>) -> usize
    requires { length (cells_of (listed items)) ≤ MAX_ELEMENTS }
    ensures { result ≡ ones (listed items.entry) }
{
    match items {
        Elements::Nums(NumberSlice::I8(numbers)) => count_ones(numbers),
        Elements::Nums(NumberSlice::I32(numbers)) => count_ones(numbers),
        Elements::Nums(NumberSlice::I64(numbers)) => count_ones(numbers),
        Elements::Chars(_) => 0,
    }
}

/// How many items there are of each, where either extends from 1. Other unequal counts are a length fault.
pub(crate) fn common_count(m: usize, n: usize) -> Result<usize, Fault>
    ensures { result ≡ common_count m n }
{
    if m == 1 {
        Ok(n)
    } else if n == 1 {
        Ok(m)
    } else if m == n {
        Ok(n)
    } else {
        Err(Fault::Length)
    }
}

/// It is a length fault where there are neither as many ones as places nor a single place, which serves at each.
pub(crate) fn fits_ones(ones: usize, len: usize) -> Result<(), Fault>
    ensures { result ≡ demand (len == 1 || ones == len) Fault.Length }
{
    if len == 1 || ones == len {
        Ok(())
    } else {
        Err(Fault::Length)
    }
}

/// The place for `k` among so many items, of which a single one serves at each.
#[inline(always)]
pub(crate) fn extended(count: usize, k: usize) -> usize
    ensures { result ≡ place_served count k }
{
    if count == 1 { 0 } else { k }
}

/// Of so many places on an axis those at a 1.
fn kept_over<L: Lane>(
    alloc: Global,
    bits: &[L],
    len: usize,
    count: usize,
) -> Result<Vec<Option<usize>>, AllocError>
    requires { common_count (length bits.now) len ≡ Ok count }
    ensures { IfOk result (λ v. v.items ≡ kept (L.numbers bits.now) len count) }
{
    let mut places = Vec::with_capacity(alloc, count)?;
    for k in 0..count {
        if !is_one_at(bits, extended(bits.len(), k)) {
            continue;
        }
        places.push(Some(extended(len, k)))?;
    }
    Ok(places)
}

/// The same of zeros and ones of any type.
pub(crate) fn kept(
    alloc: Global,
    bits: NumberSlice<'_>,
    len: usize,
    count: usize,
) -> Result<Vec<Option<usize>>, AllocError>
    requires { common_count (length (values bits)) len ≡ Ok count }
    ensures { IfOk result (λ v. v.items ≡ kept (values bits.entry) len count) }
{
    match bits {
        NumberSlice::I8(bits) => kept_over(alloc, bits, len, count),
        NumberSlice::I32(bits) => kept_over(alloc, bits, len, count),
        NumberSlice::I64(bits) => kept_over(alloc, bits, len, count),
    }
}

/// At each 1 the next place on an axis, at each 0 none.
fn spread_over<L: Lane>(
    alloc: Global,
    bits: &[L],
    len: usize,
) -> Result<Vec<Option<usize>>, AllocError>
    ensures { IfOk result (λ v. v.items ≡ spread (L.numbers bits.now) len) }
{
    let mut places = Vec::with_capacity(alloc, bits.len())?;
    let mut next = 0usize;
    for k in 0..bits.len() {
        if !is_one_at(bits, k) {
            places.push(None)?;
            continue;
        }
        places.push(Some(extended(len, next)))?;
        next += 1;
    }
    Ok(places)
}

/// The same of zeros and ones of any type.
pub(crate) fn spread(
    alloc: Global,
    bits: NumberSlice<'_>,
    len: usize,
) -> Result<Vec<Option<usize>>, AllocError>
    ensures { IfOk result (λ v. v.items ≡ spread (values bits.entry) len) }
{
    match bits {
        NumberSlice::I8(bits) => spread_over(alloc, bits, len),
        NumberSlice::I32(bits) => spread_over(alloc, bits, len),
        NumberSlice::I64(bits) => spread_over(alloc, bits, len),
    }
}
