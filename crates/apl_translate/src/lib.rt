//! Lines as they are bound, the phrase table, the translation of a line into flat
//! instructions, and a cache of translations.
#![tactic(auto)]

mod binding;
mod cache;
mod equality;
mod form;
mod laws;
mod phrase;
mod ready;
mod translation;

pub use binding::{bind, without_label};
pub use cache::{Cache, KEPT, LineCode};
pub use form::{Bound, Form, Placed, Word};
pub use laws::phrases_of_the_table;
pub use ready::Translated;
pub use translation::translate;
