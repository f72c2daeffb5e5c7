//! Symbols.
ghost use Rattle.std.specs.Prelude.{◌≡◌, true, Some, ℕ};
ghost use Rattle.apl_charset.specs.Set.{is_member};
ghost use Rattle.apl_symbols.specs.Glyphs.{glyph_of, mark_of, symbol_of};

use crate::primitive::Primitive;
use apl_charset::Ch;

/// A character that is a token by itself.
#[derive(Clone, Copy, PartialEq, Eq, Debug)]
pub enum Symbol {
    Primitive(Primitive),
    /// `.`
    Dot,
    /// `∘`
    Jot,
    /// `←`
    LeftArrow,
    /// `→`
    RightArrow,
    /// `(`
    OpenParenthesis,
    /// `)`
    CloseParenthesis,
    /// `[`
    OpenBracket,
    /// `]`
    CloseBracket,
    /// `;`
    Semicolon,
    /// `⎕`
    Quad,
    /// `:`
    Colon,
}

impl Symbol {
    /// The symbol that a character is, if it is one.
    pub fn new(c: Ch) -> Option<Symbol>
        ensures { result ≡ symbol_of c }
    {
        match Primitive::new(c) {
            Some(function) => Some(Symbol::Primitive(function)),
            None => mark(c),
        }
    }

    /// Its character.
    pub fn glyph(self) -> Ch
        ensures { result ≡ glyph_of self }
    {
        Ch::member(self.code())
    }

    #[tactic(auto, unfolding(apl_charset::specs::Set::is_member))]
    fn code(self) -> char
        ensures value { result ≡ glyph_of self }
        ensures in_set { is_member (glyph_of self) ≡ true }
    {
        match self {
            Symbol::Primitive(function) => function.code(),
            Symbol::Dot => '.',
            Symbol::Jot => '∘',
            Symbol::LeftArrow => '←',
            Symbol::RightArrow => '→',
            Symbol::OpenParenthesis => '(',
            Symbol::CloseParenthesis => ')',
            Symbol::OpenBracket => '[',
            Symbol::CloseBracket => ']',
            Symbol::Semicolon => ';',
            Symbol::Quad => '⎕',
            Symbol::Colon => ':',
        }
    }
}

/// The symbol that a character is, if it is one and no primitive function.
#[tactic(auto, unfolding(crate::specs::Glyphs::mark_of))]
fn mark(c: Ch) -> Option<Symbol>
    ensures { result ≡ mark_of c }
{
    match c.code() {
        '.' => Some(Symbol::Dot),
        '∘' => Some(Symbol::Jot),
        '←' => Some(Symbol::LeftArrow),
        '→' => Some(Symbol::RightArrow),
        '(' => Some(Symbol::OpenParenthesis),
        ')' => Some(Symbol::CloseParenthesis),
        '[' => Some(Symbol::OpenBracket),
        ']' => Some(Symbol::CloseBracket),
        ';' => Some(Symbol::Semicolon),
        '⎕' => Some(Symbol::Quad),
        ':' => Some(Symbol::Colon),
        _ => None,
    }
}

/// The law that symbols and their characters go together.
pub fn symbols_by_glyph()
    ensures written { (s : Symbol) → symbol_of (glyph_of s) ≡ Some s }
    ensures read { (c : ℕ) → (s : Symbol) → symbol_of c ≡ Some s → glyph_of s ≡ c }
{}
