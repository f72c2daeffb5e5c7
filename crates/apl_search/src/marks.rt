// Which numbers stand among others that lie close together, by number.
ghost use Rattle.std.specs.Prelude.{◌≡◌, length, replicate, false, List, ℤ, IfOk, IfSome};
ghost use Rattle.std.specs.Ordering.{int_eq};
ghost use Rattle.std.specs.List.{All, list_any};
ghost use Rattle.apl_arrays.specs.Numbers.{values};
ghost use Rattle.apl_search.specs.inside.Tables.{AreMarks, IsMarksOf, IsWithin, Spans};

use crate::table::{Span, plan};
use apl_arrays::NumberSlice;
use std::alloc::{AllocError, Global};

/// Whether a number stands among others, in a slot for each from the smallest of these to the largest.
#[derive(Drop)]
pub(crate) struct Marks {
    span: Span,
    marks: Vec<bool>,
}

/// Marks the slot of each number, where none is marked.
pub(crate) fn mark(marks: &mut [bool], span: Span, numbers: NumberSlice<'_>)
    requires within { All (IsWithin span) (values numbers) }
    requires slots { Spans span (length marks.old) }
    requires none { marks.old ≡ replicate (length marks.old) false }
    ensures { AreMarks span.smallest marks.new (values numbers.entry) }
{
    for place in 0..numbers.len() {
        marks[span.slot(numbers.at(place))] = true;
    }
}

impl Marks {
    /// The marks of numbers. There are none where these lie far apart.
    pub(crate) fn of(alloc: Global, numbers: NumberSlice<'_>) -> Result<Option<Marks>, AllocError>
        ensures { IfOk result (λ made. IfSome made (λ marks. IsMarksOf marks (values numbers.entry))) }
    {
        let Some((span, slots, _)) = plan(numbers) else {
            return Ok(None);
        };
        let mut marks = vec![in alloc; false; slots]?;
        mark(marks.as_mut_slice(), span, numbers);
        Ok(Some(Marks { span, marks }))
    }

    /// Whether a number stands among those of the marks.
    #[inline(always)]
    pub(crate) fn has(&self, number: i64) -> bool
        requires { Spans self.now.span (length self.now.marks.items) }
        ensures { (zs : List ℤ) → IsMarksOf self.now zs → result ≡ list_any (int_eq number) zs }
    {
        if number < self.span.smallest || self.span.largest < number {
            return false;
        }
        self.marks[self.span.slot(number)]
    }
}
