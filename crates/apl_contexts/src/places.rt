//! Places for contexts, the oldest first: from one of them on they are over, and others take their room.
ghost use Rattle.std.specs.Prelude.{◌≡◌, ◌+◌, ◌<◌, ◌≤◌, ◌∷◌, drop, length, reverse, take, IfOk, IfSome, OnErr, OnOk};
ghost use Rattle.apl_contexts.specs.Contexts.{line_in, moved_beneath};
ghost use Rattle.apl_contexts.specs.Moves.{CanMove};
ghost use Rattle.apl_contexts.specs.inside.Places.{CanBegin, begun};
ghost use Rattle.apl_frames.specs.Flat.{begun_flat};

use crate::context::{Call, Context, Statement};
use crate::moves::Move;
use apl_charset::Text;
use apl_frames::FrameBuf;
use apl_names::DefinedFunction;
use apl_translate::Translated;
use std::alloc::{AllocError, Global};
use std::mem;
use std::rc::Rc;

/// What begins: a typed statement, a call of a function at its first line, or a text that is executed.
#[derive(Drop)]
pub(crate) enum Entry {
    Statement(Text),
    Call(DefinedFunction),
    Execute(Text),
}

impl Entry {
    /// The context, whose line has begun.
    fn with(self, line: FrameBuf) -> Context
        requires { CanBegin self }
        ensures { result ≡ begun self line }
    {
        match self {
            Entry::Statement(text) => Context::Statement(Statement { text, line }),
            Entry::Call(function) => Context::Call(Call::new(function, 1, line)),
            Entry::Execute(text) => Context::Execute(Statement { text, line }),
        }
    }
}

/// That becomes of the line of the newest of so many contexts, with another one above it.
#[inline(always)]
pub(crate) fn change_beneath(places: &mut Vec<Context>, count: usize, change: Move)
    requires above { count < length places.old.items }
    requires can { IfSome (line_in (drop 1 (reverse (take (count + 1) places.old.items)))) (λ f. CanMove change f) }
    ensures count { length places.new.items ≡ length places.old.items }
    ensures moved { reverse (take (count + 1) places.new.items) ≡ moved_beneath change (reverse (take (count + 1) places.old.items)) }
{
    if count > 0 {
        places[count - 1].change(change);
    }
}

/// A context lies in the place behind so many, which stand. What lies there is over, and comes last of the places, where there is room for
/// that. After an error nothing has changed.
pub(crate) fn lay(
    places: &mut Vec<Context>,
    count: usize,
    context: Context,
) -> Result<(), AllocError>
    requires { count ≤ length places.old.items }
    ensures ok { OnOk result (reverse (take (count + 1) places.new.items) ≡ context ∷ reverse (take count places.old.items)) }
    ensures above { OnOk result (count < length places.new.items) }
    ensures err { OnErr result (places.new.items ≡ places.old.items) }
{
    if count == places.len() {
        places.push(context)?;
        return Ok(());
    }
    let over = mem::replace(&mut places[count], context);
    // What stood there keeps its room for a later one, if there is memory.
    let _ = places.push(over);
    Ok(())
}

/// The last of the places goes, where so many others stand and it isn't one of them.
pub(crate) fn take_last(places: &mut Vec<Context>, count: usize) -> Option<Context>
    requires { count ≤ length places.old.items }
    ensures count { count ≤ length places.new.items }
    ensures same { take count places.new.items ≡ take count places.old.items }
{
    if count == places.len() {
        return None;
    }
    places.pop()
}

/// A line of which no phrase is done, in the room of what lies in the last of the places, where so many others stand; that goes.
fn begun(
    places: &mut Vec<Context>,
    count: usize,
    alloc: Global,
    line: Rc<Translated>,
) -> Result<FrameBuf, AllocError>
    requires { count ≤ length places.old.items }
    ensures line { IfOk result (λ f. f ≡ begun_flat line.value.bound line.value.code) }
    ensures count { count ≤ length places.new.items }
    ensures same { take count places.new.items ≡ take count places.old.items }
{
    if let Some(over) = take_last(places, count) {
        if let Some(mut room) = over.into_line() {
            room.restart(line)?;
            return Ok(room);
        }
    }
    FrameBuf::of(alloc, line)
}

/// Another context begins its line in the place behind so many, where none has the room for it.
#[inline(never)]
fn lay_new(
    places: &mut Vec<Context>,
    count: usize,
    alloc: Global,
    entry: Entry,
    line: Rc<Translated>,
) -> Result<(), AllocError>
    requires count { count ≤ length places.old.items }
    requires can { CanBegin entry }
    ensures ok { OnOk result (reverse (take (count + 1) places.new.items) ≡ begun entry (begun_flat line.value.bound line.value.code) ∷ reverse (take count places.old.items)) }
    ensures above { OnOk result (count < length places.new.items) }
    ensures count { count ≤ length places.new.items }
    ensures err { OnErr result (take count places.new.items ≡ take count places.old.items) }
{
    let line = begun(places, count, alloc, line)?;
    lay(places, count, entry.with(line))
}

/// Another context begins its line in the place behind so many, in the room of what lies there, which is over. After an error these stand as
/// before.
#[tactic(auto, using(crate::proofs::Counted::one_more_set))]
#[inline(always)]
pub(crate) fn lay_begun(
    places: &mut Vec<Context>,
    count: usize,
    alloc: Global,
    entry: Entry,
    line: Rc<Translated>,
) -> Result<(), AllocError>
    requires count { count ≤ length places.old.items }
    requires can { CanBegin entry }
    ensures ok { OnOk result (reverse (take (count + 1) places.new.items) ≡ begun entry (begun_flat line.value.bound line.value.code) ∷ reverse (take count places.old.items)) }
    ensures above { OnOk result (count < length places.new.items) }
    ensures count { count ≤ length places.new.items }
    ensures err { OnErr result (take count places.new.items ≡ take count places.old.items) }
{
    if count == places.len() {
        return lay_new(places, count, alloc, entry, line);
    }
    match (&mut places[count], entry) {
        (Context::Statement(over), Entry::Statement(text)) => over.begin(text, line),
        (Context::Call(over), Entry::Call(function)) => over.begin_first(alloc, function, line),
        (Context::Execute(over), Entry::Execute(text)) => over.begin(text, line),
        (_, entry) => lay_new(places, count, alloc, entry, line),
    }
}
