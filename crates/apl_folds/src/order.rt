// The elements of views in row-major order.
ghost use Rattle.std.specs.Prelude.{◌≡◌, ◌≤◌, IfOk, IsTrue};
ghost use Rattle.apl_arrays.specs.Left.{listed};
ghost use Rattle.apl_arrays.specs.Index.{bound_of, size_of};
ghost use Rattle.apl_arrays.specs.Strides.{lengths, seen, whole_axes, IsView};
ghost use Rattle.apl_folds.specs.Order.{items_ordered};

use apl_arrays::{Array, Axis, Elements, MAX_ELEMENTS, Strided, View};
use std::alloc::{AllocError, Global};

/// The elements of a view in row-major order: those of the array that it shows, where it shows all of them in their order, and else copies.
#[derive(Drop)]
pub enum Ordered<'a> {
    Borrowed(Elements<'a>),
    Copied(Array),
}

impl<'a> Ordered<'a> {
    /// The elements where they lie.
    pub fn items(&self) -> Elements<'_>
        ensures { listed result ≡ items_ordered self.now }
    {
        match self {
            Ordered::Borrowed(elements) => *elements,
            Ordered::Copied(array) => array.items(),
        }
    }
}

/// Whether axes are those of a whole array of so many elements, in row-major order.
fn are_whole(axes: &[Axis], count: usize) -> bool
    requires { bound_of (lengths axes.now) ≤ MAX_ELEMENTS }
    ensures whole { IsTrue result → axes.now ≡ whole_axes (lengths axes.now) }
    ensures size { IsTrue result → count ≡ size_of (lengths axes.now) }
{
    let mut size = 1usize;
    for k in (0..axes.len()).rev() {
        let axis = axes[k];
        if axis.up != size || axis.down != 0 {
            return false;
        }
        size *= axis.length;
    }
    size == count
}

/// Whether steps show all elements in their order.
fn shows_all(strided: &Strided<'_>) -> bool
    requires { IsView (listed strided.now.items) strided.now.offset strided.now.axes.now }
    ensures { IsTrue result → seen (listed strided.now.items) strided.now.offset strided.now.axes.now ≡ listed strided.now.items }
{
    strided.offset == 0 && are_whole(strided.axes, strided.items.len())
}

/// The elements of a view in row-major order: borrowed where the view is seen to show a whole array in its own order, else copied.
pub fn in_order<'a>(alloc: Global, view: &'a View<'_>) -> Result<Ordered<'a>, AllocError>
    ensures { IfOk result (λ elements. items_ordered elements ≡ view.now.items) }
{
    let strided = view.strided();
    if shows_all(&strided) {
        return Ok(Ordered::Borrowed(strided.items));
    }
    Ok(Ordered::Copied(view.copied(alloc)?))
}
