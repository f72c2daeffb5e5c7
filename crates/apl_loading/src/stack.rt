//! The operand stack of a line that awaits an answer.
ghost use Rattle.std.specs.Prelude.{◌≡◌, ◌↔◌, IsTrue, IfOk, map, is_none};
ghost use Rattle.apl_saved.specs.Rules.{kind_of};
ghost use Rattle.apl_loading.specs.inside.Made.{HasStack};

use apl_arrays::Array;
use apl_code::Code;
use apl_listing::{Kind, kinds};
use apl_machine_state::Operand;
use std::alloc::{AllocError, Global};

/// Whether just these slots are empty.
fn are_empty(empty: &[bool], slots: &[Option<Array>]) -> bool
    ensures { IsTrue result ↔ (empty.now ≡ map is_none slots.now) }
{
    if empty.len() != slots.len() {
        return false;
    }
    for i in 0..slots.len() {
        if empty[i] != slots[i].is_none() {
            return false;
        }
    }
    true
}

/// Whether an operand is of this kind: a value, or an index list with these empty slots.
fn is_of(kind: &Kind, operand: &Operand) -> bool
    ensures { IsTrue result ↔ (kind.now ≡ kind_of operand.now) }
{
    match kind {
        Kind::Value => matches!(operand, Operand::Value(_)),
        Kind::Slots(empty) => match operand {
            Operand::Value(_) => false,
            Operand::Slots(slots) => are_empty(empty.as_slice(), slots.as_slice()),
        },
    }
}

/// Whether the operands are of these kinds.
fn are_of(kinds: &[Kind], operands: &[Operand]) -> bool
    ensures { IsTrue result ↔ (kinds.now ≡ map kind_of operands.now) }
{
    if kinds.len() != operands.len() {
        return false;
    }
    for i in 0..operands.len() {
        if !is_of(&kinds[i], &operands[i]) {
            return false;
        }
    }
    true
}

/// Whether some instructions are done but not the last, and leave these operands beneath the answer.
pub(crate) fn has_stack(
    alloc: Global,
    code: &Code,
    done: usize,
    operands: &[Operand],
) -> Result<bool, AllocError>
    ensures { IfOk result (λ b. IsTrue b ↔ HasStack code.now done operands.now) }
{
    if done < 1 || done >= code.len() {
        return Ok(false);
    }
    let mut stack = kinds(alloc, code, done)?;
    stack.reverse();
    match stack.pop() {
        Some(Kind::Value) => Ok(are_of(stack.as_slice(), operands)),
        _ => Ok(false),
    }
}
