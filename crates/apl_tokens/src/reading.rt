// The token at the start of a text.
ghost use Rattle.std.specs.Prelude.{◌≡◌, ◌+◌, ◌*◌, ◌^◌, ◌<◌, ◌≤◌, length, take, drop, true, false, IfSome, IfNone, IfOk, IfErr};
ghost use Rattle.std.specs.Str.Parse.{digits_value};
ghost use Rattle.apl_tokens.specs.Spelling.{class_at, all_digits, signed_value, in_range, is_quad, is_colon};
ghost use Rattle.apl_tokens.specs.Reading.{takes, run_len, number_at, name_at, body_at, text_at, quad_at, symbol_at, next_at, Gives, after_of};
ghost use Rattle.apl_tokens.specs.declared.reading.Halt.TheVariants.{Memory};

use crate::class::{Class, class_of};
use crate::place::Place;
use crate::token::{Kind, Numbers};
use apl_charset::{Ch, Text};
use apl_symbols::{Name, Symbol, SystemName};
use std::alloc::{AllocError, AllocFailed, Global};

/// What is wrong with what a text begins with.
#[derive(Clone, Copy, Debug)]
pub enum Fault {
    /// Quotes that aren't closed.
    Quote,
    /// A character that can't stand there.
    Stray,
    /// A number out of range, or a name that is too long.
    Limit,
}

/// Why no token was read.
#[derive(Clone, Copy, Debug)]
pub enum Halt {
    Memory,
    /// The fault, and how many characters stand before it.
    Broken(Fault, usize),
}

impl From<AllocError> for Halt {
    ghost from_gives = { λ _ e. e ≡ Memory };

    fn from(_e: AllocError) -> Halt {
        Halt::Memory
    }
}

impl<T: Drop> From<AllocFailed<T>> for Halt {
    ghost from_gives = { λ _ e. e ≡ Memory };

    fn from(_e: AllocFailed<T>) -> Halt {
        Halt::Memory
    }
}

/// The class of the first character.
#[tactic(auto, using(crate::proofs::Classes::no_class))]
pub fn class_at(rest: &[Ch]) -> Class
    ensures { result ≡ class_at rest.now }
{
    match rest.first() {
        Some(c) => class_of(*c),
        None => Class::Other,
    }
}

/// What a run of characters is of.
#[derive(Clone, Copy, Debug)]
pub enum Run {
    Blanks,
    Digits,
    Name,
}

impl Run {
    fn takes(self, class: Class) -> bool
        ensures { result ≡ takes self class }
    {
        match self {
            Run::Blanks => class.is_blank(),
            Run::Digits => class.is_digit(),
            Run::Name => class.is_in_name(),
        }
    }

    /// How many of the first characters are of the run.
    pub fn len(self, rest: &[Ch]) -> usize
        ensures is { result ≡ run_len self rest.now }
        ensures within { result ≤ length rest.now }
    {
        for (i, c) in rest.iter().enumerate() {
            if !self.takes(class_of(*c)) {
                return i;
            }
        }
        rest.len()
    }
}

/// The greatest magnitude of a number.
const LIMIT: u64 = 1 << 63;

/// The number that the digits write, if it is at most 2 ^ 63.
pub fn magnitude(digits: &[Ch]) -> Option<u64>
    requires { all_digits digits.now ≡ true }
    ensures some { IfSome result (λ m. (m ≡ digits_value 10 digits.now) × (m ≤ 2 ^ 63)) }
    ensures none { IfNone result (2 ^ 63 < digits_value 10 digits.now) }
{
    let mut m = 0;
    for c in digits {
        if m > LIMIT / 10 {
            return None;
        }
        m = m * 10 + (c.code() as u64 - '0' as u64);
        if m > LIMIT {
            return None;
        }
    }
    Some(m)
}

/// The number with that sign, if it is in range.
pub fn with_sign(negative: bool, m: u64) -> Option<i64>
    requires { m ≤ 2 ^ 63 }
    ensures some { IfSome result (λ n. (n ≡ signed_value negative m) × (in_range negative m ≡ true)) }
    ensures none { IfNone result (in_range negative m ≡ false) }
{
    if negative {
        Some((-(m as i128)) as i64)
    } else if m < LIMIT {
        Some(m as i64)
    } else {
        None
    }
}

/// The number whose digits, and what is after them, are `rest`.
#[tactic(auto, unfolding(crate::specs::Reading::number_at))]
fn number_at(alloc: Global, negative: bool, rest: &[Ch]) -> Result<(Kind, usize), Halt>
    requires { length rest.now < 1000 }
    ensures is { Gives result (number_at negative rest.now) }
    ensures within { IfErr result (λ e. after_of e ≤ 1 + length rest.now) }
    ensures same { negative ≡ false → IfErr result (λ e. after_of e ≤ length rest.now) }
{
    let len = Run::Digits.len(rest);
    if len == 0 {
        return Err(Halt::Broken(Fault::Stray, 0));
    }
    let (digits, after) = rest.split_at(len);
    let sign = usize::from(negative);
    match magnitude(digits) {
        None => Err(Halt::Broken(Fault::Limit, 0)),
        Some(m) => match with_sign(negative, m) {
            None => Err(Halt::Broken(Fault::Limit, 0)),
            Some(n) => {
                if class_at(after).ends_number() {
                    Ok((Kind::Constant(Numbers::one(alloc, n)?), sign + len))
                } else {
                    Err(Halt::Broken(Fault::Stray, sign + len))
                }
            }
        },
    }
}

/// The name at the start.
#[tactic(auto, unfolding(crate::specs::Reading::name_at))]
fn name_at(rest: &[Ch]) -> Result<(Kind, usize), Halt>
    ensures is { Gives result (name_at rest.now) }
    ensures within { IfErr result (λ e. after_of e ≤ length rest.now) }
{
    let (letters, _) = rest.split_at(Run::Name.len(rest));
    match Name::new(letters) {
        Some(name) => Ok((Kind::Name(name), letters.len())),
        None => Err(Halt::Broken(Fault::Limit, 0)),
    }
}

/// The rest of a text, and how many characters it takes with its closing quote.
fn body_at(alloc: Global, rest: &[Ch]) -> Result<Option<(Text, usize)>, Halt>
    ensures is { IfOk result (λ body. body ≡ body_at false rest.now) }
    ensures within { IfOk result (λ body. IfSome body (λ b. b.1 ≤ length rest.now)) }
    ensures err { IfErr result (λ e. e ≡ Memory) }
{
    let mut text = Vec::new(alloc);
    let mut quoted = false;
    for (i, c) in rest.iter().enumerate() {
        let is_quote = class_of(*c).is_quote();
        if quoted {
            if !is_quote {
                return Ok(Some((Text::new(text), i)));
            }
            text.push(*c)?;
            quoted = false;
            continue;
        }
        if is_quote {
            quoted = true;
            continue;
        }
        text.push(*c)?;
    }
    if quoted {
        Ok(Some((Text::new(text), rest.len())))
    } else {
        Ok(None)
    }
}

/// The text whose characters, its closing quote and what is after it are `rest`.
#[tactic(auto, unfolding(crate::specs::Reading::text_at))]
fn text_at(alloc: Global, rest: &[Ch]) -> Result<(Kind, usize), Halt>
    requires { length rest.now < 1000 }
    ensures is { Gives result (text_at rest.now) }
    ensures within { IfErr result (λ e. after_of e ≤ length rest.now) }
{
    match body_at(alloc, rest)? {
        None => Err(Halt::Broken(Fault::Quote, 0)),
        Some((text, len)) => Ok((Kind::Text(text), 1 + len)),
    }
}

/// The system name, or the quad alone, where `rest` is what comes after the quad.
#[tactic(auto, unfolding(crate::specs::Reading::quad_at))]
fn quad_at(rest: &[Ch]) -> Result<(Kind, usize), Halt>
    requires { length rest.now < 1000 }
    ensures is { Gives result (quad_at rest.now) }
    ensures within { IfErr result (λ e. after_of e ≤ length rest.now) }
{
    if !class_at(rest).is_letter() {
        return Ok((Kind::Symbol(Symbol::Quad), 1));
    }
    let (letters, _) = rest.split_at(Run::Name.len(rest));
    match SystemName::new(letters) {
        Some(name) => Ok((Kind::System(name), 1 + letters.len())),
        None => Err(Halt::Broken(Fault::Stray, 0)),
    }
}

pub fn is_quad(symbol: Symbol) -> bool
    ensures { result ≡ is_quad symbol }
{
    matches!(symbol, Symbol::Quad)
}

pub fn is_colon(symbol: Symbol) -> bool
    ensures { result ≡ is_colon symbol }
{
    matches!(symbol, Symbol::Colon)
}

/// The token that begins with a symbol, where `rest` is what comes after it.
#[tactic(auto, unfolding(crate::specs::Reading::symbol_at))]
fn symbol_at(symbol: Symbol, place: Place, rest: &[Ch]) -> Result<(Kind, usize), Halt>
    requires { length rest.now < 1000 }
    ensures is { Gives result (symbol_at symbol place rest.now) }
    ensures within { IfErr result (λ e. after_of e ≤ length rest.now) }
{
    if is_quad(symbol) {
        quad_at(rest)
    } else if is_colon(symbol) && !place.is_named() {
        Err(Halt::Broken(Fault::Stray, 0))
    } else {
        Ok((Kind::Symbol(symbol), 1))
    }
}

/// The token or the fault at the start.
#[tactic(auto, unfolding(crate::specs::Reading::next_at, crate::specs::Reading::next_of))]
pub fn next_at(alloc: Global, place: Place, rest: &[Ch]) -> Result<(Kind, usize), Halt>
    requires { length rest.now < 1000 }
    ensures is { Gives result (next_at place rest.now) }
    ensures within { IfErr result (λ e. after_of e ≤ length rest.now) }
{
    let Some((first, after)) = rest.split_first() else {
        return Err(Halt::Broken(Fault::Stray, 0));
    };
    match class_of(*first) {
        Class::Digit => number_at(alloc, false, rest),
        Class::Minus => number_at(alloc, true, after),
        Class::Quote => text_at(alloc, after),
        Class::Letter => name_at(rest),
        Class::Lamp => {
            let text = Vec::from_slice(alloc, after)?;
            Ok((Kind::Comment(Text::new(text)), 1 + after.len()))
        }
        Class::Symbol(symbol) => symbol_at(symbol, place, after),
        Class::Other | Class::Blank => Err(Halt::Broken(Fault::Stray, 0)),
    }
}
