// How long the token at the start of a text is, without making it.
ghost use Rattle.std.specs.Prelude.{◌≡◌, ℕ, ◌<◌, ◌≤◌, ◌∷◌, length, false, IfSome};
ghost use Rattle.apl_tokens.specs.declared.class.Class.TheVariants.{Letter};
ghost use Rattle.apl_tokens.specs.Characters.{class_of};
ghost use Rattle.apl_tokens.specs.Reading.{number_at, name_at, body_at, text_at, quad_at, symbol_at, next_at};
ghost use Rattle.apl_tokens.specs.Measures.{measured, body_len};
ghost use Rattle.apl_tokens.specs.declared.brackets.Side.TheVariants.{Neither};

use crate::brackets::{Side, side_of};
use crate::class::{Class, class_of};
use crate::place::Place;
use crate::reading::{Run, class_at, is_colon, is_quad, magnitude, with_sign};
use apl_charset::Ch;
use apl_symbols::{MOST, Symbol, SystemName};

/// What is needed of a token to read on behind it.
#[derive(Clone, Copy, Debug)]
pub struct Measure {
    /// What it does to the brackets that are open.
    pub side: Side,
    /// Whether it is a user name.
    pub is_name: bool,
    /// How many characters it takes.
    pub len: usize,
}

/// A token of so many characters that is neither a name nor a bracket.
fn plain(len: usize) -> Measure
    ensures { result ≡ record { side = Neither; is_name = false; len = len } }
{
    Measure {
        side: Side::Neither,
        is_name: false,
        len,
    }
}

/// The number whose digits, and what is after them, are `rest`.
#[tactic(auto, unfolding(crate::specs::Reading::number_at))]
fn number_len(negative: bool, rest: &[Ch]) -> Option<Measure>
    requires { length rest.now < 1000 }
    ensures { result ≡ measured (number_at negative rest.now) }
{
    let len = Run::Digits.len(rest);
    if len == 0 {
        return None;
    }
    let (digits, after) = rest.split_at(len);
    match magnitude(digits) {
        None => None,
        Some(m) => match with_sign(negative, m) {
            None => None,
            Some(_) => {
                if class_at(after).ends_number() {
                    Some(plain(usize::from(negative) + len))
                } else {
                    None
                }
            }
        },
    }
}

/// The name whose first character stands before `after`.
fn name_len(after: &[Ch]) -> Option<Measure>
    requires { length after.now < 1000 }
    ensures { (c : ℕ) → class_of c ≡ Letter → result ≡ measured (name_at (c ∷ after.now)) }
{
    let len = 1 + Run::Name.len(after);
    if len > MOST {
        return None;
    }
    Some(Measure {
        side: Side::Neither,
        is_name: true,
        len,
    })
}

/// How many characters the rest of a text takes with its closing quote.
fn body_len(rest: &[Ch]) -> Option<usize>
    ensures is { result ≡ body_len (body_at false rest.now) }
    ensures within { IfSome result (λ len. len ≤ length rest.now) }
{
    let mut quoted = false;
    for (i, c) in rest.iter().enumerate() {
        let is_quote = class_of(*c).is_quote();
        if quoted {
            if !is_quote {
                return Some(i);
            }
            quoted = false;
            continue;
        }
        if is_quote {
            quoted = true;
            continue;
        }
    }
    if quoted { Some(rest.len()) } else { None }
}

/// The text whose characters, its closing quote and what is after it are `rest`.
#[tactic(auto, unfolding(crate::specs::Reading::text_at))]
fn text_len(rest: &[Ch]) -> Option<Measure>
    requires { length rest.now < 1000 }
    ensures { result ≡ measured (text_at rest.now) }
{
    match body_len(rest) {
        None => None,
        Some(len) => Some(plain(1 + len)),
    }
}

/// The system name, or the quad alone, where `rest` is what comes after the quad.
#[tactic(auto, unfolding(crate::specs::Reading::quad_at))]
fn quad_len(rest: &[Ch]) -> Option<Measure>
    requires { length rest.now < 1000 }
    ensures { result ≡ measured (quad_at rest.now) }
{
    if !class_at(rest).is_letter() {
        return Some(plain(1));
    }
    let (letters, _) = rest.split_at(Run::Name.len(rest));
    match SystemName::new(letters) {
        Some(_) => Some(plain(1 + letters.len())),
        None => None,
    }
}

/// The token that begins with a symbol, where `rest` is what comes after it.
#[tactic(auto, unfolding(crate::specs::Reading::symbol_at))]
fn symbol_len(symbol: Symbol, place: Place, rest: &[Ch]) -> Option<Measure>
    requires { length rest.now < 1000 }
    ensures { result ≡ measured (symbol_at symbol place rest.now) }
{
    if is_quad(symbol) {
        quad_len(rest)
    } else if is_colon(symbol) && !place.is_named() {
        None
    } else {
        Some(Measure {
            side: side_of(symbol),
            is_name: false,
            len: 1,
        })
    }
}

/// The token at the start, if one is there.
#[tactic(auto, unfolding(crate::specs::Reading::next_at, crate::specs::Reading::next_of))]
pub fn next_len(place: Place, rest: &[Ch]) -> Option<Measure>
    requires { length rest.now < 1000 }
    ensures { result ≡ measured (next_at place rest.now) }
{
    let Some((first, after)) = rest.split_first() else {
        return None;
    };
    match class_of(*first) {
        Class::Digit => number_len(false, rest),
        Class::Minus => number_len(true, after),
        Class::Quote => text_len(after),
        Class::Letter => name_len(after),
        Class::Lamp => Some(plain(1 + after.len())),
        Class::Symbol(symbol) => symbol_len(symbol, place, after),
        Class::Other | Class::Blank => None,
    }
}
