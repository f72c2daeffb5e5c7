//! What tells two machines apart.
ghost use Rattle.std.specs.Prelude.{◌≡◌, IfNone, IfOk};
ghost use Rattle.apl_parts.specs.Taken.{parts_of};

use crate::same::are_same;
use apl_machine::{Machine, Parts};
use std::alloc::AllocError;

/// The first of what two machines have that differs.
#[derive(Clone, Copy)]
pub enum Difference {
    /// Output where there is none.
    Output,
    /// The workspace file that was saved last.
    File,
    /// The global functions: their definitions or their vectors.
    Functions,
    /// The global variables.
    Variables,
    /// The index origin.
    Origin,
    /// The contexts: the calls, their locals, or what is half done.
    Contexts,
}

impl Difference {
    /// What is told of it.
    pub fn as_str(self) -> &'static str {
        match self {
            Difference::Output => "output",
            Difference::File => "saved file",
            Difference::Functions => "list of functions",
            Difference::Variables => "list of variables",
            Difference::Origin => "index origin",
            Difference::Contexts => "list of contexts",
        }
    }
}

/// The first difference between two workspaces, if there is one.
fn first_difference(one: &Parts, other: &Parts) -> Option<Difference>
    ensures { IfNone result (one.now ≡ other.now) }
{
    if !are_same(one.functions(), other.functions()) {
        return Some(Difference::Functions);
    }
    if !are_same(one.variables(), other.variables()) {
        return Some(Difference::Variables);
    }
    if one.origin() != other.origin() {
        return Some(Difference::Origin);
    }
    if !are_same(one.contexts(), other.contexts()) {
        return Some(Difference::Contexts);
    }
    None
}

/// The first difference between the parts of two machines, if there is one. Which context is the newest, and what it does,
/// says also whether a machine runs.
pub fn compare(one: &Machine, other: &Machine) -> Result<Option<Difference>, AllocError>
    ensures { IfOk result (λ what. IfNone what (parts_of one.now ≡ parts_of other.now)) }
{
    let some = one.parts()?;
    let others = other.parts()?;
    Ok(first_difference(&some, &others))
}
