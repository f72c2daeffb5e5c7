// Pieces of slices, and items repeated.
ghost use Rattle.std.specs.Prelude.{◌≡◌, ◌≤◌, ◌+◌, ◌++◌, length, OnOk, replicate, take, drop};

use std::alloc::AllocError;

/// So many items of a slice, from one on.
pub(crate) fn piece<T>(items: &[T], from: usize, len: usize) -> &[T]
    requires { from + len ≤ length items.now }
    ensures { result.now ≡ take len (drop from items.now) }
{
    items.split_at(from).1.split_at(len).0
}

/// Appends an item so many times.
pub(crate) fn repeat<T: Copy>(out: &mut Vec<T>, item: T, count: usize) -> Result<(), AllocError>
    ensures { OnOk result (out.new.items ≡ out.old.items ++ replicate count item) }
{
    for _ in 0..count {
        out.push(item)?;
    }
    Ok(())
}
