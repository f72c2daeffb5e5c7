// The numbers up to a count.
ghost use Rattle.std.specs.Prelude.{◌≡◌, ◌+◌, ◌^◌, ◌<◌, length, map, pos};
ghost use Rattle.std.specs.List.{range_with_len};
ghost use Rattle.apl_arrays.specs.Answers.{Answers, FaultsFirst};
ghost use Rattle.apl_arrays.specs.Origins.{origin_number};
ghost use Rattle.apl_search.specs.Counted.{natural, count_named, iota};

use apl_arrays::{Array, NumberVec, Origin, Ravel, Stop, numbers_in, within_limits};
use apl_faults::Fault;
use std::alloc::{AllocError, Global};

/// A number that is not negative.
fn as_count(number: i64) -> Result<usize, Fault>
    ensures { result ≡ natural number }
{
    if number < 0 {
        Err(Fault::Domain)
    } else {
        Ok(number as usize)
    }
}

/// The count that an array of one number names.
fn count_in(b: &Array) -> Result<usize, Fault>
    ensures { result ≡ count_named b.now }
{
    if b.rank() > 1 {
        return Err(Fault::Rank);
    }
    if b.items().len() != 1 {
        return Err(Fault::Length);
    }
    match numbers_in(b.items())?.only() {
        Some(number) => as_count(number),
        None => Err(Fault::Length),
    }
}

/// Writes the numbers from a number on.
fn count_up(numbers: &mut [i32], first: usize)
    requires { first + length numbers.old < 2 ^ 31 }
    ensures { numbers.new ≡ map pos (range_with_len first (length numbers.old)) }
{
    for k in 0..numbers.len() {
        numbers[k] = (first + k) as i32;
    }
}

/// The numbers from the index origin on, as many as an array of one number says, as a vector.
///
/// More than one axis is a rank fault, then another count of elements a length fault, then a character or a negative number a domain
/// fault, then a vector over the limits a limit fault. Every fault is found before memory is asked for.
pub fn iota(alloc: Global, b: &Array, origin: Origin) -> Result<Array, Stop>
    ensures value { Answers (λ r. r) (iota b.now (origin_number origin)) result }
    ensures at_once { FaultsFirst (iota b.now (origin_number origin)) result }
{
    let count = count_in(b)?;
    within_limits(&[count])?;
    let mut numbers = vec![in alloc; 0i32; count]?;
    count_up(numbers.as_mut_slice(), origin.number());
    Ok(Array::vector(alloc, Ravel::Nums(NumberVec::I32(numbers)))?)
}
