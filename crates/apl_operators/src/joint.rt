// Axes that are joined.
ghost use Rattle.std.specs.Prelude.{◌≡◌, ◌<◌, ◌≤◌, ◌+◌, ◌-◌, ◌*◌, ℕ, length, slice_index_or, pos};
ghost use Rattle.apl_arrays.specs.Axes.{without};
ghost use Rattle.apl_operators.specs.Products.{joined_length};

use apl_faults::Fault;

/// How two arrays are joined: the first one has so many rows, which are `left` long, the second one so many columns, which are `right`
/// long, and `joined` is the length of both where one of length 1 extends.
#[derive(Clone, Copy)]
pub(crate) struct Joint {
    pub(crate) rows: usize,
    pub(crate) columns: usize,
    pub(crate) left: usize,
    pub(crate) right: usize,
    pub(crate) joined: usize,
}

/// The length of joined axes, of which one of length 1 extends. It is a length fault where they differ.
pub(crate) fn joined(left: usize, right: usize) -> Result<usize, Fault>
    ensures { result ≡ joined_length left right }
{
    if left == 1 {
        Ok(right)
    } else if right == 1 {
        Ok(left)
    } else if left == right {
        Ok(left)
    } else {
        Err(Fault::Length)
    }
}

/// The lengths without the last, and the last, which for a scalar is 1.
pub(crate) fn without_last(shape: &[usize]) -> (&[usize], usize)
    ensures others { result.0.now ≡ without (length shape.now - 1) shape.now }
    ensures last { result.1 ≡ slice_index_or shape.now (length shape.now - 1) 1 }
{
    match shape {
        [] => (&[], 1),
        [others @ .., last] => (others, *last),
    }
}

/// The lengths without the first, and the first, which for a scalar is 1.
pub(crate) fn without_first(shape: &[usize]) -> (&[usize], usize)
    ensures others { result.0.now ≡ without 0 shape.now }
    ensures first { result.1 ≡ slice_index_or shape.now 0 1 }
{
    match shape {
        [] => (&[], 1),
        [first, others @ ..] => (others, *first),
    }
}
