// Scalars and vectors joined in a vector.
ghost use Rattle.std.specs.Prelude.{◌≡◌, false};
ghost use Rattle.apl_arrays.specs.Answers.{Answers, FaultsFirst};
ghost use Rattle.apl_reshape.specs.inside.Vectors.{joined_vectors};

use crate::blocks::{Block, Rows};
use crate::pairs::{paired, ravel_joined};
use apl_arrays::{Array, Stop, within_limits};
use std::alloc::Global;

/// The block of all elements, so many.
fn all_in_a_row(len: usize) -> Block
    ensures { result ≡ record { is_scalar = false; len = len } }
{
    Block {
        is_scalar: false,
        len,
    }
}

/// All elements of A and then all of B in a vector.
///
/// The faults are those of [`paired`], and then a limit fault where they are more than an array may have.
pub(crate) fn join_vectors(alloc: Global, a: &Array, b: &Array) -> Result<Array, Stop>
    ensures value { Answers (λ r. r) (joined_vectors a.now b.now) result }
    ensures at_once { FaultsFirst (joined_vectors a.now b.now) result }
{
    let first = a.items();
    let second = b.items();
    let pair = paired(first, second)?;
    let shape = [first.len() + second.len()];
    within_limits(&shape)?;
    let row = Rows {
        room: shape[0],
        count: 1,
        x: all_in_a_row(first.len()),
        y: all_in_a_row(second.len()),
    };
    let ravel = ravel_joined(alloc, row, pair)?;
    Ok(Array::in_shape(alloc, &shape, ravel)?)
}
