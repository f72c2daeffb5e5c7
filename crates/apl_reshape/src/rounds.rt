// Elements taken round.
ghost use Rattle.std.specs.Prelude.{◌≡◌, ◌<◌, ◌++◌, length, OnOk, map};
ghost use Rattle.std.specs.List.{range_with_len};
ghost use Rattle.apl_reshape.specs.Reshape.{item_round};

use crate::pieces::repeat;
use apl_arrays::Structural;
use std::alloc::{AllocError, Global};

/// Appends so many items, taken round from these.
fn push_rounds<T: Copy>(out: &mut Vec<T>, items: &[T], count: usize) -> Result<(), AllocError>
    requires { 0 < length items.now }
    ensures { OnOk result ((d : T) → out.new.items ≡ out.old.items ++ map (item_round items.now d) (range_with_len 0 count)) }
{
    for _ in 0..count / items.len() {
        out.extend_from_slice(items)?;
    }
    out.extend_from_slice(items.split_at(count % items.len()).0)?;
    Ok(())
}

/// So many items, taken round from others, or fills where there are none.
#[derive(Clone, Copy)]
pub(crate) struct Round {
    pub(crate) count: usize,
}

impl Structural for Round {
    ghost use Rattle.std.specs.Prelude.{map};
    ghost use Rattle.std.specs.List.{range_with_len};
    ghost use Rattle.apl_reshape.specs.Reshape.{item_round};

    ghost takes = { λ r n. Unit {0} };

    ghost makes = { λ A r d fill xs. map (item_round xs fill) (range_with_len 0 r.count) };

    fn make<T: Copy>(self, alloc: Global, items: &[T], fill: T) -> Result<Vec<T>, AllocError> {
        let mut out = Vec::with_capacity(alloc, self.count)?;
        match items {
            [] => {
                repeat(&mut out, fill, self.count)?;
                Ok(out)
            }
            [item] => {
                repeat(&mut out, *item, self.count)?;
                Ok(out)
            }
            _ => {
                push_rounds(&mut out, items, self.count)?;
                Ok(out)
            }
        }
    }
}
