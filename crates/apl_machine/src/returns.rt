//! Returns of calls.
ghost use Rattle.std.specs.Prelude.{◌≡◌, IfNone, IfOk, IfSome, IsSome, None, Some, option_copied};
ghost use Rattle.apl_names.specs.Maps.{first_map, said, value_in};
ghost use Rattle.apl_machine_state.specs.Calls.{result_of};
ghost use Rattle.apl_frames.specs.Flat.{Stands};
ghost use Rattle.apl_contexts.specs.Contexts.{AreStacked, Place, line_in};
ghost use Rattle.apl_contexts.specs.Stacks.{contexts_of};
ghost use Rattle.apl_machine.specs.Spaces.{IsPendent, IsReturn};

use crate::reports::context_fault;
use apl_contexts::{Call, Stack};
use apl_faults::Fault;
use apl_frames::FrameBuf;
use apl_machine_state::OutLine;
use apl_names::{Binding, Names};
use apl_symbols::Name;
use std::alloc::{AllocError, Global};

/// What the return of a call makes of its caller's line.
#[derive(Clone, Copy)]
pub(crate) enum Return {
    /// The value of this name, the result, takes the place of the call.
    Answers(Name),
    /// The call gave no value, and was all of the line.
    Empties,
    /// The call gave no value where one is wanted.
    Fails,
}

/// The name of the result, where it has a value in the map of the call.
fn answering(names: &Names, call: &Call) -> Option<Name>
    ensures some { IfSome result (λ name. (call.now.definition.header.result ≡ Some name) × IsSome (value_in (said (first_map names.now) name))) }
    ensures none { IfNone result (result_of call.now.definition.header.result (first_map names.now) ≡ None) }
{
    let name = call.definition().header().result?;
    match names.local(&name) {
        Some(Binding::Value(_)) => Some(name),
        _ => None,
    }
}

/// What the newest of these contexts is doing.
fn newest_line(contexts: Stack<'_>) -> Option<&FrameBuf>
    ensures { option_copied result ≡ line_in (contexts_of contexts.entry) }
{
    match contexts.newest() {
        Some(context) => context.line(),
        None => None,
    }
}

/// What the return of a call makes of the line of its caller, the newest of these contexts, and what
/// it writes. The call's map is the newest of the names.
pub(crate) fn returning(
    alloc: Global,
    names: &Names,
    call: &Call,
    caller: Stack<'_>,
) -> Result<(Return, Vec<OutLine>), AllocError>
    requires pendent { IsPendent (contexts_of caller) }
    requires stacked { (p : Place) × AreStacked p (contexts_of caller) }
    ensures is { IfOk result (λ r. IsReturn r.0 r.1.items names.now call.now (contexts_of caller.entry)) }
    ensures stands { IfOk result (λ r. IfSome (line_in (contexts_of caller.entry)) (λ f. Stands f)) }
{
    let Some(line) = newest_line(caller) else {
        unreachable!()
    };
    // A line that stands is as its code says.
    let _frame = line.frame();
    if let Some(name) = answering(names, call) {
        return Ok((Return::Answers(name), Vec::new(alloc)));
    }
    match line.missing() {
        None => Ok((Return::Empties, Vec::new(alloc))),
        Some(column) => {
            let report = context_fault(alloc, Fault::Value, caller, column)?;
            Ok((Return::Fails, report))
        }
    }
}
