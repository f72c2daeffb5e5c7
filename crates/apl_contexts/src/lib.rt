//! The contexts of a machine: typed statements, calls and texts that are executed, each in its place, and
//! how their lines begin.
#![tactic(auto)]

mod coming;
mod context;
mod contexts;
mod entering;
mod fast;
mod known;
mod lines;
mod moves;
mod places;
mod stack;
mod typed;

pub use context::{Call, Context, Statement};
pub use contexts::Contexts;
pub use fast::{FallBack, Path};
pub use lines::{Lines, TextLine, function_line, text_line};
pub use moves::Move;
pub use stack::Stack;
