//! Names.
ghost use Rattle.std.specs.Prelude.{◌≡◌, ◌≢◌, ◌≤◌, ◌-◌, length, nat_le, if◌then◌else◌, refl, true, false, Some, None};
ghost use Rattle.std.proofs.Common.{rules};
ghost use Rattle.std.specs.Cmp.{partial_equiv_from_equiv};
ghost use Rattle.std.specs.Cmp.Lexicographic.{nat_list_cmp_total, nat_list_eq_equiv, slice_cmp, texts_po, texts_ties};
ghost use Rattle.std.specs.Cmp.Rules.{hashing};
ghost use Rattle.std.specs.Hash as fed;
ghost use Rattle.std.specs.Int.{is_in_range};
ghost use Rattle.std.specs.Ordering.{nat_cmp};
ghost use Rattle.std.specs.Str.{bytes_eq};
ghost use Rattle.apl_symbols.specs.Short.{short_of};

use apl_charset::Ch;
use std::cmp::Ordering;
use std::hash::{Hash, Hasher};
use std::marker::Model;

/// The most characters that a name has.
pub const MOST: usize = 32;

/// The most characters that are counted together in one number.
const MOST_SHORT: usize = 8;

/// A text of at most 32 characters, as names are. It is copied without memory. Names ascend by code
/// points from the first on, a prefix before the whole.
/// Contracts see the list of its characters.
#[derive(Clone, Copy, Debug)]
pub struct Name {
    len: usize,
    /// The characters, and blanks behind them: so equal names have equal fields.
    padded: [Ch; MOST],
    /// A number that a name of at most 8 characters of ASCII has alone, by which most names are compared at once, and 0 for every other name.
    short: u64,
}

impl Model for Name {
    ghost use Rattle.std.specs.Prelude.{◌≡◌, ◌≤◌, List, ℕ, take, length, replicate, ◌++◌, ◌-◌};
    ghost use Rattle.std.proofs.Common.{sym};
    ghost use Rattle.apl_symbols.specs.Padded.{filled, IsPadded, padded_again, len_again};
    ghost use Rattle.apl_symbols.specs.Short.{short_of};

    ghost Value = { List ℕ };

    ghost view = { λ n. take n.len n.padded };

    ghost invariant = { λ n. IsPadded n.len n.padded × (n.short ≡ short_of (take n.len n.padded)) };

    ghost inverse = { λ text. record { len = length text; padded = filled text; short = short_of text } };

    ghost inverse_ok = { λ n h i. record { len = len_again n.len n.padded h.0 i; padded = padded_again n.len n.padded h.0 i; short = sym h.1 i } };
}

/// Whether a character is one of ASCII, and not the one whose code is 0.
#[inline(always)]
fn is_digit(code: char) -> bool
    ensures { result ≡ is_in_range 1 126 code }
{
    matches!(code, '\u{1}'..='~')
}

/// The number that a text of at most 8 characters of ASCII has alone, and 0 for every other text. The characters are its digits to the base
/// 256, the first of them the lowest.
fn short_of(text: &[Ch]) -> u64
    ensures { result ≡ short_of text.now }
{
    if text.len() > MOST_SHORT {
        return 0;
    }
    let mut short: u64 = 0;
    let mut at = text.len();
    while at > 0 {
        at -= 1;
        let code = text[at].code();
        if !is_digit(code) {
            return 0;
        }
        short = 256 * short + code as u64;
    }
    short
}

impl Name {
    /// The name of these characters, where they are at most 32.
    pub fn new(text: &[Ch]) -> Option<Name>
        ensures { result ≡ (if nat_le (length text.now) MOST then Some text.now else None) }
    {
        if text.len() > MOST {
            return None;
        }
        let mut padded = [Ch::default(); MOST];
        padded[..text.len()].copy_from_slice(text);
        Some(Name {
            len: text.len(),
            padded,
            short: short_of(text),
        })
    }

    /// Its characters.
    pub fn as_slice(&self) -> &[Ch]
        ensures value { result.now ≡ self.now }
        ensures few { length result.now ≤ MOST }
    {
        &self.padded[..self.len]
    }

    /// A number that a name of at most 8 characters of ASCII has alone, and 0 for every other name.
    #[inline(always)]
    pub fn short(&self) -> u64
        ensures { result ≡ short_of self.now }
    {
        self.short
    }

    /// Whether two names are the same. Most are short, and need no loop.
    #[inline(always)]
    pub fn is_same(&self, other: &Name) -> bool
        ensures same { result ≡ true → self.now ≡ other.now }
        ensures other { result ≡ false → self.now ≢ other.now }
    {
        if self.short != other.short {
            return false;
        }
        self.short != 0 || are_alike(self, other)
    }
}

/// Whether two names are the same, by their characters. It stands apart, so that the fast path takes no more than it needs.
#[inline(never)]
fn are_alike(one: &Name, other: &Name) -> bool
    ensures same { result ≡ true → one.now ≡ other.now }
    ensures other { result ≡ false → one.now ≢ other.now }
{
    one.as_slice() == other.as_slice()
}

impl PartialEq for Name {
    ghost eq = { bytes_eq };

    ghost laws = { partial_equiv_from_equiv nat_list_eq_equiv };

    #[inline(always)]
    fn eq(&self, other: &Name) -> bool {
        self.is_same(other)
    }
}

impl Eq for Name {
    ghost laws = { nat_list_eq_equiv };
}

impl PartialOrd for Name {
    ghost partial_cmp = { λ a b. Some (slice_cmp nat_cmp a b) };

    ghost laws = { texts_po };

    fn partial_cmp(&self, other: &Name) -> Option<Ordering> {
        Some(self.cmp(other))
    }
}

impl Ord for Name {
    ghost cmp = { slice_cmp nat_cmp };

    ghost total = { nat_list_cmp_total };

    ghost matches_partial_cmp = { λ a b. refl };

    ghost matches_eq = { texts_ties };

    fn cmp(&self, other: &Name) -> Ordering {
        self.as_slice().cmp(other.as_slice())
    }
}

impl Hash for Name {
    ghost hash_input = { fed.slice fed.char };

    ghost respects_eq = { Prim.search (hashing, rules) };

    fn hash<H: Hasher>(&self, state: &mut H) {
        self.as_slice().hash(state);
    }
}
