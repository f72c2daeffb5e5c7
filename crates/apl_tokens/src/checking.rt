// Whether a text has tokens.
ghost use Rattle.std.specs.Prelude.{◌≡◌, ◌<◌, ◌==◌, length, is_ok, []};
ghost use Rattle.apl_tokens.specs.Measures.{turned, unless_refused};
ghost use Rattle.apl_tokens.specs.Tokens.{tokens_of};

use crate::brackets::{Bracket, Side};
use crate::measuring::next_len;
use crate::place::Place;
use apl_charset::Ch;
use std::marker::Model;

/// The most characters that a line has, so the most brackets that are open in it.
const LONGEST: usize = 500;

/// The brackets that are open in a line. Contracts see their list, the innermost first.
#[derive(Drop)]
struct Open {
    brackets: [Bracket; LONGEST],
    depth: usize,
}

impl Model for Open {
    ghost use Rattle.std.specs.Prelude.{◌≡◌, ◌≤◌, List, length, take, reverse};
    ghost use Rattle.apl_tokens.specs.declared.brackets.Bracket.{Bracket};

    ghost Value = { List Bracket };

    ghost view = { λ o. reverse (take o.depth o.brackets) };

    ghost invariant = { λ o. (o.depth ≤ 500) × (length o.brackets ≡ 500) };
}

impl Open {
    /// No open bracket.
    fn none() -> Open
        ensures { result ≡ [] }
    {
        Open {
            brackets: [Bracket::Round; LONGEST],
            depth: 0,
        }
    }

    /// Opens or closes a bracket; false where it closes another than the innermost.
    fn turn(&mut self, side: Side) -> bool
        requires { length self.now < 500 }
        ensures { turned side self.old ≡ unless_refused result self.new }
    {
        match side {
            Side::Neither => return true,
            Side::Opens(bracket) => {
                self.brackets[self.depth] = bracket;
                self.depth += 1;
                return true;
            }
            Side::Closes(bracket) => {
                if self.depth == 0 {
                    return false;
                }
                self.depth -= 1;
                return bracket.is(self.brackets[self.depth]);
            }
        }
    }

    /// Whether no bracket is open.
    fn is_empty(&self) -> bool
        ensures { result ≡ (length self.now == 0) }
    {
        self.depth == 0
    }
}

/// Whether a text has tokens, so that [`crate::tokens`] answers them where there is memory. It needs
/// no memory.
pub fn is_read(text: &[Ch]) -> bool
    ensures { result ≡ is_ok (tokens_of text.now) }
{
    if text.len() > LONGEST {
        return false;
    }
    let mut open = Open::none();
    let mut place = Place::Start;
    let mut rest = text;
    while let Some((first, behind)) = rest.split_first() {
        if *first == Ch::default() {
            rest = behind;
            continue;
        }
        let Some(measure) = next_len(place, rest) else {
            return false;
        };
        if !open.turn(measure.side) {
            return false;
        }
        place = place.behind(measure.is_name);
        let (_, after) = rest.split_at(measure.len);
        rest = after;
    }
    open.is_empty()
}
