// Checks of operands.
ghost use Rattle.std.specs.Prelude.{◌≡◌};
ghost use Rattle.apl_arrays.specs.Checks.{limited, numbers_of};
ghost use Rattle.apl_arrays.specs.Left.{listed};
ghost use Rattle.apl_arrays.specs.Numbers.{values};
ghost use Rattle.apl_arrays.specs.Results.{ok_map};

use crate::elements::Elements;
use crate::numbers::NumberSlice;
use crate::shape::{MAX_RANK, is_in_bounds};
use apl_faults::Fault;

/// It is a limit fault exactly where no array may have this shape: more than [`MAX_RANK`] axes, or more than
/// [`MAX_ELEMENTS`](crate::MAX_ELEMENTS) elements where an axis of length 0 counts as 1.
pub fn within_limits(shape: &[usize]) -> Result<(), Fault>
    ensures { limited shape.now ≡ ok_map (λ u. shape.now) result }
{
    if shape.len() <= MAX_RANK && is_in_bounds(shape) {
        Ok(())
    } else {
        Err(Fault::Limit)
    }
}

/// The numbers among elements. Characters are a domain fault, but where there are none they serve as numbers.
pub fn numbers_in(items: Elements<'_>) -> Result<NumberSlice<'_>, Fault>
    ensures { numbers_of (listed items.entry) ≡ ok_map values result }
{
    match items {
        Elements::Nums(numbers) => Ok(numbers),
        Elements::Chars(characters) => {
            if characters.is_empty() {
                Ok(NumberSlice::I8(&[]))
            } else {
                Err(Fault::Domain)
            }
        }
    }
}
