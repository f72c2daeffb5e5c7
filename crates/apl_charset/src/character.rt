// A character of the set.
ghost use Rattle.std.specs.Prelude.{◌≡◌, ◌<◌, ◌==◌, IfSome, IfNone, Some, eqb, refl, true, false, slice_index_or};
ghost use Rattle.std.proofs.Common.{rules};
ghost use Rattle.std.specs.Char.{IsScalar};
ghost use Rattle.std.specs.Cmp.{nat_cmp_total, nat_eq_equiv, partial_equiv_from_equiv, unsigned_po, unsigned_ties};
ghost use Rattle.std.specs.Cmp.Rules.{hashing};
ghost use Rattle.std.specs.Hash as fed;
ghost use Rattle.std.specs.Int.{is_in_range};
ghost use Rattle.std.specs.List.{list_any};
ghost use Rattle.std.specs.Ordering.{nat_cmp};
ghost use Rattle.apl_charset.specs.Set.{is_member, symbols};

use std::cmp::Ordering;
use std::fmt::{self, Debug, Formatter, Write};
use std::hash::{Hash, Hasher};
use std::marker::Model;

/// A character of the machine's set: printing ASCII, and the APL symbols.
/// Characters ascend by code point; contracts see a character as its code point.
#[derive(Clone, Copy)]
pub struct Ch {
    /// Its place in the set, whose members ascend.
    place: u8,
}

impl Model for Ch {
    ghost use Rattle.std.specs.Prelude.{ℕ, ◌<◌};
    ghost use Rattle.apl_charset.specs.inside.Places.{member_at, place_of, place_again};

    ghost Value = { ℕ };

    ghost view = { λ a. member_at a.place };

    ghost invariant = { λ a. a.place < 131 };

    ghost inverse = { λ n. record { place = place_of n } };

    ghost inverse_ok = { λ a h i. record { place = place_again a.place h i } };
}

/// The members that are ASCII.
const ASCII: u8 = 95;

/// The members beside ASCII, ascending.
const SYMBOLS: [char; 36] = [
    '¯', '×', '÷', '←', '↑', '→', '↓', '∆', '∇', '∊', '∘', '∧', '∨', '≠', '≤', '≥', '⊖', '⊤', '⊥',
    '⌈', '⌊', '⌽', '⌿', '⍀', '⍉', '⍋', '⍎', '⍒', '⍕', '⍙', '⍝', '⍱', '⍲', '⍳', '⍴', '⎕',
];

/// The place of a character among the symbols, if it is one.
fn symbol_place(c: char) -> Option<u8>
    ensures some { IfSome result (λ k. (k < 36) × (slice_index_or symbols k 0 ≡ c)) }
    ensures none { IfNone result (list_any (λ s. s == c) symbols ≡ false) }
{
    let place = match c {
        '¯' => 0,
        '×' => 1,
        '÷' => 2,
        '←' => 3,
        '↑' => 4,
        '→' => 5,
        '↓' => 6,
        '∆' => 7,
        '∇' => 8,
        '∊' => 9,
        '∘' => 10,
        '∧' => 11,
        '∨' => 12,
        '≠' => 13,
        '≤' => 14,
        '≥' => 15,
        '⊖' => 16,
        '⊤' => 17,
        '⊥' => 18,
        '⌈' => 19,
        '⌊' => 20,
        '⌽' => 21,
        '⌿' => 22,
        '⍀' => 23,
        '⍉' => 24,
        '⍋' => 25,
        '⍎' => 26,
        '⍒' => 27,
        '⍕' => 28,
        '⍙' => 29,
        '⍝' => 30,
        '⍱' => 31,
        '⍲' => 32,
        '⍳' => 33,
        '⍴' => 34,
        '⎕' => 35,
        _ => return None,
    };
    Some(place)
}

impl Ch {
    /// The character, if it is in the set.
    #[tactic(auto, unfolding(crate::specs::Set::is_member))]
    pub fn new(c: char) -> Option<Ch>
        ensures some { IfSome result (λ x. (x ≡ c) × (is_member c ≡ true)) }
        ensures none { IfNone result ((is_member c ≡ false) × IsScalar c) }
    {
        if matches!(c, ' '..='~') {
            return Some(Ch::ascii(c as u8));
        }
        match symbol_place(c) {
            Some(place) => Some(Ch {
                place: ASCII + place,
            }),
            None => None,
        }
    }

    /// A character that is known to be in the set.
    pub fn member(c: char) -> Ch
        requires { is_member c ≡ true }
        ensures { result ≡ c }
    {
        match Ch::new(c) {
            Some(member) => member,
            None => unreachable!(),
        }
    }

    /// A printing ASCII character.
    pub fn ascii(b: u8) -> Ch
        requires { is_in_range 32 126 b ≡ true }
        ensures { result ≡ b }
    {
        Ch { place: b - 32 }
    }

    /// Its code point.
    #[tactic(auto, using(crate::proofs::Places::place_member))]
    pub fn code(self) -> char
        ensures value { result ≡ self }
        ensures in_set { is_member self ≡ true }
    {
        if self.place < ASCII {
            return (self.place + 32) as char;
        }
        SYMBOLS[(self.place - ASCII) as usize]
    }
}

impl PartialEq for Ch {
    ghost eq = { eqb };

    ghost laws = { partial_equiv_from_equiv nat_eq_equiv };

    #[tactic(auto, using(crate::proofs::Places::places_equal))]
    fn eq(&self, other: &Ch) -> bool {
        self.place == other.place
    }
}

impl Eq for Ch {
    ghost laws = { nat_eq_equiv };
}

impl PartialOrd for Ch {
    ghost partial_cmp = { λ a b. Some (nat_cmp a b) };

    ghost laws = { unsigned_po };

    fn partial_cmp(&self, other: &Ch) -> Option<Ordering> {
        Some(self.cmp(other))
    }
}

impl Ord for Ch {
    ghost cmp = { nat_cmp };

    ghost total = { nat_cmp_total };

    ghost matches_partial_cmp = { λ a b. refl };

    ghost matches_eq = { unsigned_ties };

    #[tactic(auto, using(crate::proofs::Places::places_compare))]
    fn cmp(&self, other: &Ch) -> Ordering {
        self.place.cmp(&other.place)
    }
}

impl Hash for Ch {
    ghost hash_input = { fed.char };

    ghost respects_eq = { Prim.search (hashing, rules) };

    fn hash<H: Hasher>(&self, state: &mut H) {
        self.code().hash(state);
    }
}

impl Debug for Ch {
    fn fmt<W: Write>(&self, f: &mut Formatter<W>) -> fmt::Result {
        self.code().fmt(f)
    }
}

/// The blank.
impl Default for Ch {
    ghost is_default = { λ c. c ≡ 32 };

    fn default() -> Ch {
        Ch::ascii(b' ')
    }
}
