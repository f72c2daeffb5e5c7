//! Texts as they are printed.

use apl_charset::Ch;
use std::fmt;

/// A text that is printed without memory.
#[derive(Clone, Copy)]
pub struct Shown<'a>(pub &'a [Ch]);

impl fmt::Display for Shown<'_> {
    fn fmt<W: fmt::Write>(&self, f: &mut fmt::Formatter<W>) -> fmt::Result {
        for c in self.0 {
            f.write_char(c.code())?;
        }
        Ok(())
    }
}
