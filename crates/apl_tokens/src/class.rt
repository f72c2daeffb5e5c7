// What a character may begin.
ghost use Rattle.std.specs.Prelude.{◌≡◌};
ghost use Rattle.apl_tokens.specs.Characters.{class_of, is_blank, is_digit, is_letter, is_in_name, ends_number, is_quote};

use apl_charset::Ch;
use apl_symbols::Symbol;

/// What a character begins.
#[derive(Clone, Copy, Debug)]
pub enum Class {
    Blank,
    Digit,
    /// `¯`
    Minus,
    Quote,
    Letter,
    /// `⍝`
    Lamp,
    Symbol(Symbol),
    Other,
}

/// What a character may begin or belong to.
#[inline(always)]
#[tactic(auto, unfolding(crate::specs::Characters::class_of))]
pub fn class_of(c: Ch) -> Class
    ensures { result ≡ class_of c }
{
    match c.code() {
        ' ' => Class::Blank,
        '0'..='9' => Class::Digit,
        '¯' => Class::Minus,
        '\'' => Class::Quote,
        'A'..='Z' | 'a'..='z' | '∆' | '⍙' | '_' => Class::Letter,
        '⍝' => Class::Lamp,
        _ => match Symbol::new(c) {
            Some(symbol) => Class::Symbol(symbol),
            None => Class::Other,
        },
    }
}

impl Class {
    /// Whether it is a blank.
    pub fn is_blank(self) -> bool
        ensures { result ≡ is_blank self }
    {
        matches!(self, Class::Blank)
    }

    /// Whether it is one of `0` to `9`.
    pub fn is_digit(self) -> bool
        ensures { result ≡ is_digit self }
    {
        matches!(self, Class::Digit)
    }

    /// Whether it is a letter, `∆`, `⍙` or `_`, with which a name begins.
    pub fn is_letter(self) -> bool
        ensures { result ≡ is_letter self }
    {
        matches!(self, Class::Letter)
    }

    /// Whether a name goes on with it.
    pub fn is_in_name(self) -> bool
        ensures { result ≡ is_in_name self }
    {
        matches!(self, Class::Letter | Class::Digit)
    }

    /// Whether it may stand directly after a number.
    pub fn ends_number(self) -> bool
        ensures { result ≡ ends_number self }
    {
        !matches!(self, Class::Digit | Class::Letter | Class::Minus)
    }

    /// Whether it is the quote, `'`, which begins and ends characters.
    pub fn is_quote(self) -> bool
        ensures { result ≡ is_quote self }
    {
        matches!(self, Class::Quote)
    }
}
