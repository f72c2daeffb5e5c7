//! What phrases see beside their operands.
ghost use Rattle.std.specs.Prelude.{◌≡◌, nat_lt};
ghost use Rattle.apl_arrays.specs.Origins.{origin_number};
ghost use Rattle.apl_machine_state.specs.Environment.{origin_by, origin_in, origin_name};
ghost use Rattle.apl_names.specs.Maps.{found};

use apl_arrays::{Array, Elements, Origin};
use apl_charset::Ch;
use apl_names::{Binding, Names};
use apl_symbols::Name;

/// The most calls and executes that stand at once.
const MAX_CALLS: usize = 256;

/// What phrases see beside their operands. The line numbers of the standing calls are not borrowed.
#[derive(Clone, Copy)]
pub struct Scene<'a> {
    /// The names in force.
    pub names: &'a Names,
    /// The index origin of the workspace.
    pub io: Origin,
    /// How many calls and executes stand.
    pub standing: usize,
}

/// `⎕IO` as a name, as the maps of calls know it.
#[tactic(auto, unfolding(apl_charset::specs::Set::is_member))]
pub fn origin_name() -> Name
    ensures { result ≡ origin_name }
{
    let word = [Ch::member('⎕'), Ch::ascii(b'I'), Ch::ascii(b'O')];
    let Some(name) = Name::new(&word) else {
        unreachable!()
    };
    name
}

/// The origin that an array stands for, which holds 0 or 1.
fn origin_in(array: &Array) -> Origin
    ensures { origin_number result ≡ origin_in array.now.items }
{
    match array.items() {
        Elements::Nums(numbers) => match numbers.get(0) {
            Some(0) => Origin::Zero,
            _ => Origin::One,
        },
        Elements::Chars(_) => Origin::One,
    }
}

impl<'a> Scene<'a> {
    /// Whether another call or execute may stand above those that do.
    #[inline(always)]
    pub fn has_room(self) -> bool
        ensures { result ≡ nat_lt self.entry.standing 256 }
    {
        self.standing < MAX_CALLS
    }

    /// The index origin in force.
    pub fn origin(self) -> Origin
        ensures { origin_number result ≡ origin_by (found self.entry.names.now origin_name) (origin_number self.entry.io) }
    {
        match self.names.binding(&origin_name()) {
            Some(Binding::Value(array)) => origin_in(array),
            _ => self.io,
        }
    }
}
