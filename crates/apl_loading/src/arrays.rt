//! Arrays.
ghost use Rattle.std.specs.Prelude.{◌≡◌, IfOk, IfErr};
ghost use Rattle.apl_arrays.specs.Ravels.{items_of};
ghost use Rattle.apl_saved.specs.Spelled.{AreElements, IsArrayOf};
ghost use Rattle.apl_loading.specs.Numbers.{Refuses};
ghost use Rattle.apl_loading.specs.Small.{IsSmall};
ghost use Rattle.apl_loading.specs.declared.error.LoadFault.TheVariants as fault;

use crate::error::LoadFault;
use crate::field::Field;
use crate::texts::read_text;
use apl_arrays::{Array, MAX_RANK, NumberSlice, Ravel, is_in_bounds, size};
use apl_workspace_file::{ArrayField, Elements};
use std::alloc::Global;

/// The elements of an array.
fn read_elements(alloc: Global, elements: &Elements) -> Result<Ravel, LoadFault>
    ensures found { IfOk result (λ r. AreElements elements.now (items_of r)) }
    ensures refused { IfErr result (Refuses fault.Array (λ items. AreElements elements.now items)) }
{
    match elements {
        Elements::Numbers(numbers) => {
            let numbers = NumberSlice::I64(numbers.as_slice()).squeezed(alloc)?;
            Ok(Ravel::Nums(numbers))
        }
        Elements::Text(text) => {
            let text = read_text(alloc, text, LoadFault::Array)?;
            Ok(Ravel::Chars(text.into_chars()))
        }
    }
}

impl Field for ArrayField {
    type Part = Array;

    ghost small = { IsSmall };

    ghost stands_for = { IsArrayOf };

    ghost fault = { fault.Array };

    fn is_small(&self) -> bool {
        let shape = self.shape.as_slice();
        shape.len() <= MAX_RANK && is_in_bounds(shape)
    }

    fn read(&self, alloc: Global) -> Result<Array, LoadFault> {
        let ravel = read_elements(alloc, &self.elements)?;
        let shape = self.shape.as_slice();
        if ravel.len() != size(shape) {
            return Err(LoadFault::Array);
        }
        let array = Array::in_shape(alloc, shape, ravel)?;
        // A clause of the call says that this is an array within the limits.
        let _shape = array.shape();
        Ok(array)
    }
}
