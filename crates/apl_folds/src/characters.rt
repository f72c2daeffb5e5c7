// Folds of lines of characters.
ghost use Rattle.std.specs.Prelude.{◌≡◌, ℕ, Bool, cond, length, Ok, Err};
ghost use Rattle.apl_folds.specs.Lines.{agree, line_of, IsLine};

use crate::walk::Leaf;
use apl_arrays::{Axis, along};
use apl_charset::Ch;
use apl_faults::Fault;

/// The characters along an axis, two or more, to be folded by a function of which the values for equal and for other items are known.
#[derive(Drop)]
pub(crate) struct Comparison<'a> {
    pub characters: &'a [Ch],
    pub axis: Axis,
    pub same: Result<i64, Fault>,
    pub other: Result<i64, Fault>,
}

/// Whether a line has two characters, and they are the same.
fn is_same(characters: &[Ch], axis: &Axis, at: usize, count: usize) -> bool
    requires { IsLine (length characters.now) axis.now at count }
    ensures { result ≡ agree (line_of 0 characters.now axis.now at count) }
{
    if count != 2 {
        return false;
    }
    characters[along(at, axis, 0)] == characters[along(at, axis, 1)]
}

impl<'a> Leaf for Comparison<'a> {
    ghost has = { λ s p count. IsLine (length s.characters.now) s.axis p count };

    ghost gives = { λ s p count. cond (agree (line_of 0 s.characters.now s.axis p count)) s.same s.other };

    fn value(&self, at: usize, count: usize) -> Result<i64, Fault> {
        if is_same(self.characters, &self.axis, at, count) {
            self.same
        } else {
            self.other
        }
    }
}
