// The names of a header.
ghost use Rattle.std.specs.Prelude.{◌≡◌, IfOk};

use apl_symbols::Name;
use std::alloc::{AllocError, Global};
use std::marker::Model;

/// Names in order. Contracts see their list.
#[derive(Drop, Debug)]
pub struct Names {
    items: Vec<Name>,
}

impl Model for Names {
    ghost use Rattle.std.specs.Prelude.{List, ℕ};

    ghost Value = { List (List ℕ) };

    ghost view = { λ n. n.items.items };
}

impl Names {
    /// The list of these names.
    pub fn new(items: Vec<Name>) -> Names
        ensures { result ≡ items.items }
    {
        Names { items }
    }

    /// The names, first to last.
    pub fn as_slice(&self) -> &[Name]
        ensures { result.now ≡ self.now }
    {
        self.items.as_slice()
    }

    /// The same names again.
    pub fn copy(&self, alloc: Global) -> Result<Names, AllocError>
        ensures { IfOk result (λ names. names ≡ self.now) }
    {
        Ok(Names {
            items: Vec::from_slice(alloc, self.items.as_slice())?,
        })
    }
}

/// The names of a function's header: `F`, `F B` or `A F B`, with or without `Z←` before it, and `;`
/// with a local behind it, any number of times.
#[derive(Drop, Debug)]
pub struct Header {
    pub result: Option<Name>,
    /// The left argument, which stands only with a right one.
    pub left: Option<Name>,
    pub name: Name,
    pub right: Option<Name>,
    /// The locals. `⎕IO` is the name of its three characters.
    pub locals: Names,
}

impl Header {
    /// An equal header.
    pub fn copy(&self, alloc: Global) -> Result<Header, AllocError>
        ensures { IfOk result (λ h. h ≡ self.now) }
    {
        Ok(Header {
            result: self.result,
            left: self.left,
            name: self.name,
            right: self.right,
            locals: self.locals.copy(alloc)?,
        })
    }
}

/// A function with its arguments.
#[derive(Clone, Copy)]
pub(crate) struct Form {
    pub(crate) left: Option<Name>,
    pub(crate) name: Name,
    pub(crate) right: Option<Name>,
}
