//! Listings of codes, written and read, and what instructions leave on the operand stack.
//!
//! A line of a listing is the number of an instruction, from 0, a blank, the instruction, a blank,
//! `@` and its place, and a line feed, as `1 DYA - S #0 @11`. Operands `a`, `b`: `S` the stack, `#k`
//! the constant of that number. Functions `f`, `g`: a glyph, a name or a system name.
//!
//! ```text
//! VAR name   NIL name             a variable is read, a function without arguments is called
//! MON f a    MON f K a            F B, and along an axis
//! DYA f a b  DYA f K a b          B F B, and along an axis
//! RED f / a  RED f / K a          reduction by / or ⌿, and along an axis
//! SCN f \ a  SCN f \ K a          scan by \ or ⍀, and along an axis
//! INN f g a b  OUT g a b          inner and outer product
//! BOX s .. s                      an index list: each s an operand, or - if it is empty
//! IDX a                           B indexed by an index list
//! SET name a  SETX name a  SHOW a assignment, indexed assignment, assignment to the quad
//! GRP a                           a value in parentheses
//! BRA a  ESC  FAIL                → B, → alone, and no phrase begins
//! END SHOW a  END HIDE a  END NONE  the end of a line
//! ```
//!
//! An axis and the index list of `IDX` and `SETX` stand on the stack and aren't written.
#![tactic(auto)]

mod assembly;
mod error;
mod reading;
mod stack;
mod well_made;
mod writing;

pub use assembly::{assemble, one_listing};
pub use error::AsmError;
pub use stack::{EmptySlots, Kind, kinds};
pub use writing::listing;
