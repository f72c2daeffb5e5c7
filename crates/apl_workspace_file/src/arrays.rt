//! Arrays and operands.
ghost use Rattle.std.specs.Prelude.{◌≡◌, IfOk};
ghost use Rattle.serde_json.specs.View.{view};
ghost use Rattle.apl_workspace_file.specs.Reading.{Gives, numbers_of, characters_of, array_of, slots_of, operand_of};
ghost use Rattle.apl_workspace_file.specs.Trees.{array_tree, operand_tree};

use crate::error::TreeError;
use crate::field::Field;
use crate::fields::{ArrayField, Elements, OperandField};
use crate::list::ListField;
use crate::members::{end, has, next_field, object, put_field};
use serde_json::{Map, Value};
use std::alloc::{AllocError, Global};

#[tactic(auto, unfolding(crate::specs::Reading::numbers_of))]
fn read_numbers(alloc: Global, value: Value) -> Result<ArrayField, TreeError>
    ensures { Gives result (numbers_of (view value)) }
{
    let mut members = object(value)?;
    let numbers = next_field(&mut members, alloc, "nums")?;
    let shape = next_field(&mut members, alloc, "shape")?;
    end(members)?;
    Ok(ArrayField {
        shape,
        elements: Elements::Numbers(numbers),
    })
}

#[tactic(auto, unfolding(crate::specs::Reading::characters_of))]
fn read_characters(alloc: Global, value: Value) -> Result<ArrayField, TreeError>
    ensures { Gives result (characters_of (view value)) }
{
    let mut members = object(value)?;
    let shape = next_field(&mut members, alloc, "shape")?;
    let text = next_field(&mut members, alloc, "text")?;
    end(members)?;
    Ok(ArrayField {
        shape,
        elements: Elements::Text(text),
    })
}

impl Field for ArrayField {
    ghost reading = { array_of };

    ghost tree = { array_tree };

    #[tactic(auto, unfolding(crate::specs::Reading::array_of))]
    fn read(alloc: Global, value: Value) -> Result<ArrayField, TreeError> {
        if has(&value, "nums") {
            read_numbers(alloc, value)
        } else {
            read_characters(alloc, value)
        }
    }

    fn write(&self, alloc: Global) -> Result<Value, AllocError> {
        let mut object = Map::new(alloc);
        match &self.elements {
            Elements::Numbers(numbers) => {
                put_field(&mut object, alloc, "nums", numbers)?;
                put_field(&mut object, alloc, "shape", &self.shape)?;
                Ok(Value::Object(object))
            }
            Elements::Text(text) => {
                put_field(&mut object, alloc, "shape", &self.shape)?;
                put_field(&mut object, alloc, "text", text)?;
                Ok(Value::Object(object))
            }
        }
    }
}

#[tactic(auto, unfolding(crate::specs::Reading::slots_of))]
fn read_slots(alloc: Global, value: Value) -> Result<ListField<Option<ArrayField>>, TreeError>
    ensures { Gives result (slots_of (view value)) }
{
    let mut members = object(value)?;
    let slots = next_field(&mut members, alloc, "slots")?;
    end(members)?;
    Ok(slots)
}

impl Field for OperandField {
    ghost reading = { operand_of };

    ghost tree = { operand_tree };

    #[tactic(auto, unfolding(crate::specs::Reading::operand_of))]
    fn read(alloc: Global, value: Value) -> Result<OperandField, TreeError> {
        if has(&value, "slots") {
            Ok(OperandField::Slots(read_slots(alloc, value)?))
        } else {
            Ok(OperandField::Array(ArrayField::read(alloc, value)?))
        }
    }

    fn write(&self, alloc: Global) -> Result<Value, AllocError> {
        match self {
            OperandField::Array(array) => array.write(alloc),
            OperandField::Slots(slots) => {
                let mut object = Map::new(alloc);
                put_field(&mut object, alloc, "slots", slots)?;
                Ok(Value::Object(object))
            }
        }
    }
}
