// Tokens, and the numbers of a constant.
ghost use Rattle.std.specs.Prelude.{◌≡◌, ◌++◌, ◌∷◌, [], All, IfOk, FitsSigned};
ghost use Rattle.std.specs.Int.{w64};
ghost use Rattle.std.specs.Cmp.Lexicographic.{pointwise};
ghost use Rattle.std.specs.Cmp.Rules.{comparing};
ghost use Rattle.std.specs.Ordering.{int_eq};
ghost use Rattle.std.proofs.Common.{rules};
ghost use Rattle.apl_tokens.specs.Kinds.{is_colon, is_name};

use apl_charset::Text;
use apl_symbols::{Name, Symbol, SystemName};
use std::alloc::{AllocError, Global};
use std::marker::Model;

/// The numbers of a constant. Contracts see their list; each fits 64 bits.
#[derive(Drop, Debug)]
pub struct Numbers {
    items: Vec<i64>,
}

impl Model for Numbers {
    ghost use Rattle.std.specs.Prelude.{List, ℤ, All, FitsSigned};
    ghost use Rattle.std.specs.Int.{w64};

    ghost Value = { List ℤ };

    ghost view = { λ a. a.items.items };

    ghost invariant = { λ a. All (λ n. FitsSigned w64 n) a.items.items };
}

impl Numbers {
    /// One number.
    pub fn one(alloc: Global, n: i64) -> Result<Numbers, AllocError>
        ensures { IfOk result (λ ns. ns ≡ n ∷ []) }
    {
        Ok(Numbers {
            items: vec![in alloc; n]?,
        })
    }

    /// These numbers and then those.
    pub fn followed_by(mut self, more: Numbers) -> Result<Numbers, AllocError>
        ensures { IfOk result (λ ns. ns ≡ self ++ more) }
    {
        self.items.extend_from_slice(more.items.as_slice())?;
        Ok(self)
    }

    /// The numbers, first to last.
    pub fn as_slice(&self) -> &[i64]
        ensures value { result.now ≡ self.now }
        ensures fits { All (λ n. FitsSigned w64 n) self.now }
    {
        self.items.as_slice()
    }
}

impl PartialEq for Numbers {
    ghost eq = { pointwise int_eq };

    ghost laws = { Prim.search (comparing, rules) };

    fn eq(&self, other: &Numbers) -> bool {
        self.as_slice() == other.as_slice()
    }
}

impl Eq for Numbers {
    ghost laws = { Prim.search (comparing, rules) };
}

/// What a token is.
#[derive(Drop, PartialEq, Eq, Debug)]
pub enum Kind {
    /// A number, or several with blanks alone between them.
    Constant(Numbers),
    /// What stands between quotes, a doubled quote once.
    Text(Text),
    Name(Name),
    System(SystemName),
    /// What stands after `⍝`, to the line's end.
    Comment(Text),
    Symbol(Symbol),
}

impl Kind {
    /// Whether it is a user name.
    pub fn is_name(&self) -> bool
        ensures { result ≡ is_name self.now }
    {
        matches!(self, Kind::Name(_))
    }

    /// Whether it is a colon.
    pub fn is_colon(&self) -> bool
        ensures { result ≡ is_colon self.now }
    {
        matches!(self, Kind::Symbol(Symbol::Colon))
    }
}

/// A token, and the column of its first character, from 1.
#[derive(Drop, PartialEq, Eq, Debug)]
pub struct Token {
    pub kind: Kind,
    pub at: usize,
}
