//! Operands and values of locals.
ghost use Rattle.apl_saved.specs.Spelled.{IsOperandOf};
ghost use Rattle.apl_loading.specs.Refusals.{IsSmallLocal, IsValueOf};
ghost use Rattle.apl_loading.specs.Small.{IsSmallOperand};
ghost use Rattle.apl_loading.specs.declared.error.LoadFault.TheVariants as fault;

use crate::error::LoadFault;
use crate::field::{Field, are_small, read_all};
use apl_arrays::Array;
use apl_machine_state::{Operand, Slots};
use apl_workspace_file::{LocalField, OperandField};
use std::alloc::Global;

impl Field for OperandField {
    type Part = Operand;

    ghost small = { IsSmallOperand };

    ghost stands_for = { IsOperandOf };

    ghost fault = { fault.Array };

    fn is_small(&self) -> bool {
        match self {
            OperandField::Array(array) => array.is_small(),
            OperandField::Slots(slots) => are_small(slots.as_slice()),
        }
    }

    fn read(&self, alloc: Global) -> Result<Operand, LoadFault> {
        match self {
            OperandField::Array(array) => Ok(Operand::Value(array.read(alloc)?)),
            OperandField::Slots(slots) => {
                let slots = read_all(alloc, slots.as_slice())?;
                Ok(Operand::Slots(Slots::new(slots)))
            }
        }
    }
}

// The value of a local.
impl Field for LocalField {
    type Part = Option<Array>;

    ghost small = { IsSmallLocal };

    ghost stands_for = { IsValueOf };

    ghost fault = { fault.Array };

    fn is_small(&self) -> bool {
        self.value.is_small()
    }

    fn read(&self, alloc: Global) -> Result<Option<Array>, LoadFault> {
        self.value.read(alloc)
    }
}
