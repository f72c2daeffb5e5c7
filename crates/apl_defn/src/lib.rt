//! Headers and definitions of functions, and how they are written.
#![tactic(auto)]

mod blanks;
mod defining;
mod definition;
mod error;
mod laws;
mod line;
mod listing;
mod name;
mod parts;
mod reading;

pub use blanks::trimmed;
pub use defining::{define, label_in};
pub use definition::{Definition, copy_lines};
pub use error::DefnError;
pub use laws::{definitions, headers};
pub use listing::{canonical, show};
pub use name::name_of;
pub use parts::{Header, Names};
pub use reading::header;
