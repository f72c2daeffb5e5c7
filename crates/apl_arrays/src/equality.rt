// The equality of arrays.
ghost use Rattle.std.proofs.Common.{ap};
ghost use Rattle.std.specs.Prelude.{◌≡◌};
ghost use Rattle.std.specs.List.{fold};
ghost use Rattle.std.specs.Hash as fed;
ghost use Rattle.apl_arrays.specs.Numbers.{values};
ghost use Rattle.std.specs.Cmp.{partial_equiv_from_equiv};
ghost use Rattle.apl_arrays.specs.Equality.{array_eq, array_equiv, array_same, items_input};

use crate::array::Array;
use crate::elements::Elements;
use crate::lane::Lane;
use crate::numbers::NumberSlice;
use std::hash::{Hash, Hasher};

/// Arrays are equal that have one shape, one type and the same elements.
impl PartialEq for Array {
    ghost eq = { array_eq };

    ghost laws = { partial_equiv_from_equiv array_equiv };

    fn eq(&self, other: &Array) -> bool {
        self.shape() == other.shape() && self.items() == other.items()
    }
}

impl Eq for Array {
    ghost laws = { array_equiv };
}

impl Hash for Array {
    ghost hash_input = { λ a. items_input a.items };

    ghost respects_eq = { λ a b h. ap (λ c. items_input c.items) (array_same a b h) };

    fn hash<H: Hasher>(&self, state: &mut H) {
        match self.items() {
            Elements::Nums(numbers) => hash_numbers(numbers, state),
            Elements::Chars(characters) => characters.hash(state),
        }
    }
}

/// Feeds how many numbers there are, and then each as a number of 64 bits.
fn hash_numbers<H: Hasher>(numbers: NumberSlice<'_>, state: &mut H)
    ensures { state.new ≡ fold H.write state.old (fed.slice fed.i64 (values numbers.entry)) }
{
    match numbers {
        NumberSlice::I8(items) => hash_items(items, state),
        NumberSlice::I32(items) => hash_items(items, state),
        NumberSlice::I64(items) => hash_items(items, state),
    }
}

/// The same of numbers of one type.
fn hash_items<L: Lane, H: Hasher>(items: &[L], state: &mut H)
    ensures { state.new ≡ fold H.write state.old (fed.slice fed.i64 (L.numbers items.now)) }
{
    state.write_usize(items.len());
    for item in items {
        state.write_i64(item.wide());
    }
}
