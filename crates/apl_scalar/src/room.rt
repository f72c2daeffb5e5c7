// Room at the end of a list of numbers.
ghost use Rattle.std.specs.Prelude.{◌≡◌, ◌++◌, length, pos, replicate, IfOk, OnOk};

use apl_arrays::Lane;
use std::alloc::AllocError;

/// Appends so many zeros, which are to be written over, and gives where they begin.
#[inline(always)]
pub fn grow<L: Lane>(out: &mut Vec<L>, count: usize) -> Result<usize, AllocError>
    ensures place { IfOk result (λ before. before ≡ length out.old.items) }
    ensures grown { OnOk result (L.numbers out.new.items ≡ L.numbers out.old.items ++ replicate count (pos 0)) }
    ensures items { OnOk result ((zero : L) × (out.new.items ≡ out.old.items ++ replicate count zero)) }
{
    let before = out.len();
    let Some(all) = before.checked_add(count) else {
        return Err(AllocError);
    };
    out.resize(all, L::low(0))?;
    Ok(before)
}
