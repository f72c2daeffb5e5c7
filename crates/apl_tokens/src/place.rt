// Where in a line a token stands.

ghost use Rattle.std.specs.Prelude.{◌≡◌};
ghost use Rattle.apl_tokens.specs.Spelling.{is_named, next_place};
ghost use Rattle.apl_tokens.specs.Measures.{place_behind};

use crate::token::Kind;

/// A token's place in its line.
#[derive(Clone, Copy, Debug)]
pub enum Place {
    /// First.
    Start,
    /// Second, after a name.
    Named,
    Inside,
}

impl Place {
    /// Whether a colon may stand here.
    pub fn is_named(self) -> bool
        ensures { result ≡ is_named self }
    {
        matches!(self, Place::Named)
    }

    /// Where the next token stands, after one of that kind.
    pub fn next(self, kind: &Kind) -> Place
        ensures { result ≡ next_place self kind.now }
    {
        match (self, kind) {
            (Place::Start, Kind::Name(_)) => Place::Named,
            _ => Place::Inside,
        }
    }

    /// The same after a token that is a name, or isn't.
    pub fn behind(self, is_name: bool) -> Place
        ensures { result ≡ place_behind self is_name }
    {
        match self {
            Place::Start if is_name => Place::Named,
            _ => Place::Inside,
        }
    }
}
