// The axis along which a function goes.
ghost use Rattle.std.specs.Prelude.{◌≡◌};
ghost use Rattle.apl_arrays.specs.Along.{axis_along, axis_of, axis_named, axis_numbered, first_of, last_of};
ghost use Rattle.apl_arrays.specs.Left.{listed};
ghost use Rattle.apl_arrays.specs.Origins.{origin_number};

use crate::array::Array;
use crate::elements::Elements;
use crate::origin::Origin;
use apl_faults::Fault;

/// Along which axis of an array a function goes.
#[derive(Clone, Copy)]
pub enum Along<'a> {
    /// The first axis.
    First,
    /// The last axis.
    Last,
    /// The axis that index slots name.
    Named(&'a [Option<Array>]),
}

impl<'a> Along<'a> {
    /// The axis of an array of so many, counted from 0. A scalar has no first and no last axis.
    ///
    /// A named axis is one number from the index origin on, in a single slot. Anything else is an axis fault.
    pub fn axis(self, rank: usize, origin: Origin) -> Result<Option<usize>, Fault>
        ensures { result ≡ axis_along self.entry rank (origin_number origin) }
    {
        match self {
            Along::First => Ok(first(rank)),
            Along::Last => Ok(rank.checked_sub(1)),
            Along::Named(slots) => match named(slots, rank, origin.number()) {
                Ok(axis) => Ok(Some(axis)),
                Err(fault) => Err(fault),
            },
        }
    }
}

/// The first of so many axes.
fn first(rank: usize) -> Option<usize>
    ensures { result ≡ first_of rank }
{
    if rank == 0 { None } else { Some(0) }
}

/// The axis that slots name.
fn named(slots: &[Option<Array>], rank: usize, origin: usize) -> Result<usize, Fault>
    ensures { result ≡ axis_named rank origin slots.now }
{
    match slots {
        [Some(array)] => counted(array.items(), rank, origin),
        _ => Err(Fault::Axis),
    }
}

/// The axis that the elements of an array count.
fn counted(items: Elements<'_>, rank: usize, origin: usize) -> Result<usize, Fault>
    ensures { result ≡ axis_of rank origin (listed items.entry) }
{
    match items {
        Elements::Nums(numbers) => match numbers.only() {
            Some(number) => numbered(number, rank, origin),
            None => Err(Fault::Axis),
        },
        Elements::Chars(_) => Err(Fault::Axis),
    }
}

/// The axis that a number counts from the index origin.
fn numbered(number: i64, rank: usize, origin: usize) -> Result<usize, Fault>
    ensures { result ≡ axis_numbered rank origin number }
{
    if number < 0 {
        return Err(Fault::Axis);
    }
    let number = number as usize;
    if origin <= number && number - origin < rank {
        Ok(number - origin)
    } else {
        Err(Fault::Axis)
    }
}
