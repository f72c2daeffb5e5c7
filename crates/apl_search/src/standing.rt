// Whether numbers stand among others.
ghost use Rattle.std.specs.Prelude.{◌≡◌, IfOk};
ghost use Rattle.std.specs.Ordering.{int_eq};
ghost use Rattle.std.specs.List.{list_any};
ghost use Rattle.apl_arrays.specs.Numbers.{values};
ghost use Rattle.apl_search.specs.inside.Tables.{IsIndexOf, IsStandingOf};

use crate::index::{FEW, Index};
use crate::marks::Marks;
use apl_arrays::NumberSlice;
use std::alloc::{AllocError, Global};

/// How it is found whether a number stands among others.
#[derive(Drop)]
pub(crate) enum Standing {
    /// By marks, of a byte each, where a place has four.
    Marked(Marks),
    /// By its first place.
    Placed(Index),
}

impl Standing {
    /// How it is found among these numbers, of so many: by marks where these lie close together.
    pub(crate) fn of(
        alloc: Global,
        numbers: NumberSlice<'_>,
        asked: usize,
    ) -> Result<Standing, AllocError>
        ensures { IfOk result (λ standing. IsStandingOf standing (values numbers.entry)) }
    {
        if FEW < asked {
            if let Some(marks) = Marks::of(alloc, numbers)? {
                return Ok(Standing::Marked(marks));
            }
        }
        Ok(Standing::Placed(Index::of(alloc, numbers, asked)?))
    }

    /// Whether a number stands among these.
    #[inline(always)]
    pub(crate) fn has(&self, numbers: NumberSlice<'_>, number: i64) -> bool
        requires { IsStandingOf self.now (values numbers) }
        ensures { result ≡ list_any (int_eq number) (values numbers.entry) }
    {
        match self {
            Standing::Marked(marks) => marks.has(number),
            Standing::Placed(index) => has_place(index, numbers, number),
        }
    }
}

/// Whether a number has a place among these, by their index.
#[inline(always)]
fn has_place(index: &Index, numbers: NumberSlice<'_>, number: i64) -> bool
    requires { IsIndexOf index.now (values numbers) }
    ensures { result ≡ list_any (int_eq number) (values numbers.entry) }
{
    index.first_place(numbers, number) < numbers.len()
}
