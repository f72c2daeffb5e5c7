// Rows made of a block of one operand's items and a block of another's.
ghost use Rattle.std.specs.Prelude.{◌≡◌, ◌+◌, ◌≤◌, ◌++◌, length, IfOk, OnOk};
ghost use Rattle.apl_reshape.specs.inside.Rows.{item_at, needed, row_block, rows_of_lists};

use crate::pieces::{piece, repeat};
use std::alloc::{AllocError, Global};

/// How many items of an operand stand in a row. A scalar has one for all.
#[derive(Clone, Copy)]
pub(crate) struct Block {
    pub(crate) is_scalar: bool,
    pub(crate) len: usize,
}

/// Appends the block of a row.
fn push_block<T: Copy>(
    out: &mut Vec<T>,
    items: &[T],
    block: Block,
    row: usize,
) -> Result<(), AllocError>
    requires { needed block (row + 1) ≤ length items.now }
    ensures { OnOk result ((d : T) → out.new.items ≡ out.old.items ++ row_block (item_at block.is_scalar items.now d) block.len row) }
{
    if block.is_scalar {
        repeat(out, items[0], block.len)?;
        return Ok(());
    }
    out.extend_from_slice(piece(items, row * block.len, block.len))?;
    Ok(())
}

/// So many rows of a block of each of two operands, and the room for their items.
#[derive(Clone, Copy)]
pub(crate) struct Rows {
    pub(crate) room: usize,
    pub(crate) count: usize,
    pub(crate) x: Block,
    pub(crate) y: Block,
}

impl Rows {
    /// The items of the rows.
    pub(crate) fn join<T: Copy>(
        self,
        alloc: Global,
        xs: &[T],
        ys: &[T],
    ) -> Result<Vec<T>, AllocError>
        requires xs { needed self.x self.count ≤ length xs.now }
        requires ys { needed self.y self.count ≤ length ys.now }
        ensures { IfOk result (λ v. (d : T) → v.items ≡ rows_of_lists self.x self.y self.count xs.now ys.now d) }
    {
        let mut out = Vec::with_capacity(alloc, self.room)?;
        for row in 0..self.count {
            push_block(&mut out, xs, self.x, row)?;
            push_block(&mut out, ys, self.y, row)?;
        }
        Ok(out)
    }
}
