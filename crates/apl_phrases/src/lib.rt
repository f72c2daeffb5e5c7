//! What phrases do: the values that they give, and what they do beside.
#![tactic(auto)]

mod assign;
mod assigning;
mod calling;
mod effect;
mod execute;
mod frequent;
mod lines;
mod lines_among;
mod lists;
mod name_class;
mod passing;
mod phrase;
mod scene;
mod system;
mod values;
mod watch;

pub use assigning::{assigned, assigned_indexed, assignment};
pub use calling::{FunctionCalled, called};
pub use effect::Effect;
pub use execute::executed;
pub use frequent::{NumberAssigned, number_assigned, number_given, number_kept};
pub use lines::said;
pub use lists::{slot_given, slots_given};
pub use passing::written;
pub use phrase::{Phrase, PhraseKind, row_kind};
pub use scene::{Scene, origin_name};
pub use system::effect_of;
pub use values::{read, valued};
