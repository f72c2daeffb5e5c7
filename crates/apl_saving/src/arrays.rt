//! Arrays and operands.
ghost use Rattle.std.specs.Prelude.{IfOk};
ghost use Rattle.apl_arrays.specs.Left.{listed};
ghost use Rattle.apl_saved.specs.Spelled.{AreElements, IsArrayOf, IsOperandOf};

use crate::saved::{Saved, list_field};
use crate::texts::text_field;
use apl_arrays::{Array, Elements};
use apl_machine_state::Operand;
use apl_workspace_file::{ArrayField, Elements as Field, ListField, OperandField};
use std::alloc::{AllocError, Global};

/// Elements in ravel order, numbers or a text.
fn elements_field(alloc: Global, items: Elements<'_>) -> Result<Field, AllocError>
    ensures { IfOk result (λ e. AreElements e (listed items.entry)) }
{
    match items {
        Elements::Nums(numbers) => {
            let numbers = numbers.to_wide(alloc)?;
            Ok(Field::Numbers(ListField::new(numbers)))
        }
        Elements::Chars(characters) => {
            let text = text_field(alloc, characters)?;
            Ok(Field::Text(text))
        }
    }
}

impl Saved for Array {
    type Field = ArrayField;

    ghost is_field = { IsArrayOf };

    fn field(&self, alloc: Global) -> Result<ArrayField, AllocError> {
        let shape = Vec::from_slice(alloc, self.shape())?;
        let elements = elements_field(alloc, self.items())?;
        Ok(ArrayField {
            shape: ListField::new(shape),
            elements,
        })
    }
}

impl Saved for Operand {
    type Field = OperandField;

    ghost is_field = { IsOperandOf };

    fn field(&self, alloc: Global) -> Result<OperandField, AllocError> {
        match self {
            Operand::Value(array) => Ok(OperandField::Array(array.field(alloc)?)),
            Operand::Slots(slots) => Ok(OperandField::Slots(list_field(alloc, slots.as_slice())?)),
        }
    }
}
