// The elements of a view, one after another.
ghost use Rattle.std.specs.Prelude.{◌≡◌, slice_get};
ghost use Rattle.apl_arrays.specs.Cells.{cells_of};
ghost use Rattle.apl_arrays.specs.Index.{size_of};
ghost use Rattle.apl_arrays.specs.Left.{listed};
ghost use Rattle.apl_arrays.specs.Strides.{lengths, seen, IsView};

use crate::axis::nth_place;
use crate::cell::Cell;
use crate::strided::Strided;
use std::marker::Model;

/// The elements of a view that are left, in ravel order.
#[derive(Drop)]
pub struct ViewElements<'v> {
    strided: Strided<'v>,
    count: usize,
    given: usize,
}

impl<'v> Model for ViewElements<'v> {
    ghost use Rattle.std.specs.Prelude.{◌≡◌};
    ghost use Rattle.apl_arrays.specs.Cells.{Items};

    ghost Value = { Items };

    ghost use Rattle.apl_arrays.specs.Nth.{left_after};
    ghost use Rattle.apl_arrays.specs.Index.{size_of};
    ghost use Rattle.apl_arrays.specs.Left.{listed};
    ghost use Rattle.apl_arrays.specs.Strides.{lengths, IsView};

    ghost view = { λ e. left_after e.strided e.given };

    ghost invariant = { λ e. IsView (listed e.strided.items) e.strided.offset e.strided.axes.now × (e.count ≡ size_of (lengths e.strided.axes.now)) };
}

/// The element that comes after so many others. They are `count` in all.
fn nth_cell(strided: &Strided<'_>, count: usize, nth: usize) -> Option<Cell>
    requires steps { IsView (listed strided.now.items) strided.now.offset strided.now.axes.now }
    requires whole { count ≡ size_of (lengths strided.now.axes.now) }
    ensures { result ≡ slice_get (cells_of (seen (listed strided.now.items) strided.now.offset strided.now.axes.now)) nth }
{
    if nth >= count {
        return None;
    }
    strided
        .items
        .cell(nth_place(strided.offset, strided.axes, count, nth))
}

impl<'v> ViewElements<'v> {
    /// All elements at the places of these steps, of which there are so many.
    pub(crate) fn new(strided: Strided<'v>, count: usize) -> ViewElements<'v>
        requires steps { IsView (listed strided.items) strided.offset strided.axes.now }
        requires whole { count ≡ size_of (lengths strided.axes.now) }
        ensures { result ≡ seen (listed strided.entry.items) strided.entry.offset strided.entry.axes.now }
    {
        ViewElements {
            strided,
            count,
            given: 0,
        }
    }
}

impl<'v> Iterator for ViewElements<'v> {
    type Item = Cell;

    ghost use Rattle.std.specs.Iterator.{YieldsFirst, item_count};

    ghost next_gives = { YieldsFirst cells_of };

    ghost remaining = { item_count cells_of };

    fn next(&mut self) -> Option<Cell> {
        let cell = nth_cell(&self.strided, self.count, self.given)?;
        self.given += 1;
        Some(cell)
    }
}
