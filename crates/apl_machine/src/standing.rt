//! Standing calls.
ghost use Rattle.std.specs.Prelude.{◌≡◌, Some, drop, option_copied, option_map, slice_get};
ghost use Rattle.apl_names.specs.Maps.{first_map, said, value_in};
ghost use Rattle.apl_machine_state.specs.Environment.{environment};
ghost use Rattle.apl_frames.specs.Flat.{flat_rest};
ghost use Rattle.apl_machine.specs.Standing.{calls_in, hole_in, seen, seen_call};
ghost use Rattle.apl_machine.specs.inside.Callers.{callers_in};

use crate::machine::Machine;
use apl_arrays::Array;
use apl_charset::Ch;
use apl_contexts::{Call, Contexts};
use apl_defn::Definition;
use apl_frames::{FrameBuf, Stage};
use apl_names::Binding;
use apl_symbols::Name;

/// What is seen of a standing call.
#[derive(Clone, Copy)]
pub struct Standing<'a> {
    /// Its function, as it stood when the call began.
    pub definition: &'a Definition,
    /// The number of its line, from 1.
    pub line: usize,
    /// The text of its line.
    pub text: &'a [Ch],
    /// The column, from 1, of the call or `⍎` whose answer its line awaits, if it awaits one.
    pub hole: Option<usize>,
    /// Whether it is suspended before its line.
    pub suspended: bool,
}

/// The column at which a line awaits an answer, if it does.
fn hole_in(line: &FrameBuf) -> Option<usize>
    ensures { result ≡ hole_in (Some (flat_rest line.now)) }
{
    match line.stage() {
        Stage::Pendent => Some(line.awaited_at()),
        Stage::Ready => None,
        Stage::Emptied => None,
    }
}

/// What is seen of a call.
fn seen(call: &Call) -> Standing<'_>
    ensures { seen result ≡ seen_call call.now.definition call.now.at (option_map flat_rest call.now.rest) }
{
    let hole = match call.line() {
        Some(line) => hole_in(line),
        None => None,
    };
    Standing {
        definition: call.definition(),
        line: call.at(),
        text: call.text(),
        hole,
        suspended: call.is_suspended(),
    }
}

/// The k-th newest standing call, from 0, if so many stand.
fn call_at(contexts: &Contexts, k: usize) -> Option<&Call>
    ensures { option_copied result ≡ slice_get (callers_in contexts.now) k }
{
    let mut stack = contexts.stack();
    let mut left = k;
    while stack.newest().is_some() {
        let call = stack.call();
        stack = stack.beneath();
        let Some(call) = call else {
            continue;
        };
        if left == 0 {
            return Some(call);
        }
        left -= 1;
    }
    None
}

/// The value of a name that stands for this, if it has one.
fn value_of(binding: &Binding) -> Option<&Array>
    ensures { option_copied result ≡ value_in (Some binding.now) }
{
    match binding {
        Binding::Value(array) => Some(array),
        Binding::Unset | Binding::Label(_) | Binding::Function(_) => None,
    }
}

impl Machine {
    /// The k-th newest standing call, from 0, if so many stand.
    pub fn call(&self, k: usize) -> Option<Standing<'_>>
        ensures { option_map seen result ≡ slice_get (calls_in self.now.contexts) k }
    {
        match call_at(&self.workspace.contexts, k) {
            Some(call) => Some(seen(call)),
            None => None,
        }
    }

    /// The value that the k-th newest scope, from 0, gives a name that it has itself: those of the standing calls, the newest first, and
    /// then the global one.
    pub fn value_in(&self, k: usize, name: &Name) -> Option<&Array>
        ensures { option_copied result ≡ value_in (said (first_map (drop k (environment self.now.world self.now.contexts))) name.now) }
    {
        match self.workspace.names.in_scope(k, name) {
            Some(binding) => value_of(binding),
            None => None,
        }
    }
}
