// What has a shape, a type and elements at index lists.
ghost use Rattle.std.specs.Prelude.{◌≡◌};

use crate::array::Array;
use crate::view::View;

/// What has a shape, a type, and an element of that type at each index list within the shape: an array, or a view of one.
pub trait Cells {
    ghost use Rattle.apl_arrays.specs.Cells.{Arr, IsArray};

    /// The array that it is.
    ghost array: { Self → Arr };

    /// All of it, as a view.
    fn view(&self) -> View<'_>
        ensures value { result ≡ array self.now }
        ensures array { IsArray (array self.now).shape (array self.now).items };
}

impl Cells for Array {
    ghost array = { λ a. a };

    fn view(&self) -> View<'_> {
        View::whole(self)
    }
}
