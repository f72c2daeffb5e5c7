//! How a step leaves the newest line.
ghost use Rattle.std.specs.Prelude.{◌≡◌, ◌∷◌, [], true, IfOk, IsSome, List, None, Some, ℕ};
ghost use Rattle.apl_format.specs.Display.{display};
ghost use Rattle.apl_vectors.specs.Vectors.{Vectors};
ghost use Rattle.apl_machine_state.specs.declared.operand.Operand.TheVariants.{Value};
ghost use Rattle.apl_machine_state.specs.Changes.{aim, leads_nowhere, line_number, shown_lines};
ghost use Rattle.apl_machine_state.specs.Watching.{arrow, blank};
ghost use Rattle.apl_operands.specs.Operands.{Offers, fetched_from};
ghost use Rattle.apl_frames.specs.Ends.{HoldsValue, IsColumn, has_place, is_of_value};
ghost use Rattle.apl_contexts.specs.Contexts.{AreStacked, Newest, line_in};
ghost use Rattle.apl_machine.specs.Executing.{executes};
ghost use Rattle.apl_machine.specs.inside.Leaving.{Aims, EndsAt, FailsAt, Leaves, finished, leaving, left_by};
ghost use Rattle.apl_machine.specs.inside.Next.{IsNextStep};
ghost use Rattle.apl_machine.specs.inside.Traces.{trace_of};

use crate::reports::context_fault;
use crate::traces::{trace, trace_value};
use apl_arrays::{Array, Elements};
use apl_charset::Ch;
use apl_code::{Action, Ending, Instr};
use apl_contexts::{Context, Contexts};
use apl_faults::Fault;
use apl_format::display;
use apl_frames::Stage;
use apl_machine_state::{LineKind, OutLine};
use apl_operands::{Operands, one_value};
use apl_phrases::{PhraseKind, row_kind, said};
use apl_vectors::Vectors;
use std::alloc::{AllocError, Global};

/// How a line is left at which no phrase begins. It is small, for lines end often: a value is kept
/// apart.
#[derive(Drop)]
pub enum Departure {
    /// The line of a statement or a call ends, and these lines are written.
    Ends(Vec<OutLine>),
    /// A text that is executed ends with this value, or without one.
    Answers(Box<Option<Array>>),
    /// The line branches to the line of this number, or on, and these lines are written.
    Branches(Option<usize>, Vec<OutLine>),
    /// `→` alone drops the contexts through the nearest statement, and these lines are written.
    Escapes(Vec<OutLine>),
    /// A fault abandons the line, and these lines report it.
    Fails(Vec<OutLine>),
}

/// Whether a branch to this array is to a character.
pub(crate) fn leads_nowhere(array: &Array) -> bool
    ensures { result ≡ leads_nowhere array.now.items }
{
    match array.items() {
        Elements::Chars(characters) => !characters.is_empty(),
        Elements::Nums(_) => false,
    }
}

/// The line that a number names, or 0, which is no line.
fn line_number(number: i64) -> usize
    ensures { result ≡ line_number number }
{
    if number < 0 { 0 } else { number as usize }
}

/// Where a branch to this array goes: to the line of its first number, or on where it has none.
pub(crate) fn aim(array: &Array) -> Option<usize>
    ensures { result ≡ aim array.now.items }
{
    match array.items() {
        Elements::Nums(numbers) => match numbers.get(0) {
            Some(number) => Some(line_number(number)),
            None => None,
        },
        Elements::Chars(_) => None,
    }
}

/// The report of a fault in the line of the newest context.
pub fn failing(
    alloc: Global,
    fault: Fault,
    contexts: &Contexts,
    column: usize,
) -> Result<Vec<OutLine>, AllocError>
    requires stacked { AreStacked Newest contexts.now }
    requires column { IsColumn column }
    ensures { IfOk result (FailsAt column fault contexts.now) }
{
    context_fault(alloc, fault, contexts.stack(), column)
}

/// The mark of a trace before where a branch goes.
#[tactic(auto, unfolding(apl_charset::specs::Set::is_member))]
fn arrow() -> [Ch; 2]
    ensures { result ≡ arrow }
{
    [Ch::ascii(b' '), Ch::member('→')]
}

/// Whether the newest context is a text that is executed.
fn executes(contexts: &Contexts) -> bool
    ensures { result ≡ executes contexts.now }
{
    matches!(contexts.newest(), Some(Context::Execute(_)))
}

/// The newest line ends without a value.
fn finishing(alloc: Global, traces: &Vectors, contexts: &Contexts) -> Result<Departure, AllocError>
    ensures { IfOk result (Leaves (finished (executes contexts.now) None [] [] []) traces.now contexts.now) }
{
    if executes(contexts) {
        return Ok(Departure::Answers(Box::new(alloc, None)?));
    }
    Ok(Departure::Ends(trace(alloc, traces, contexts.call(), &[])?))
}

/// The newest line ends with a value that isn't shown.
fn hiding(
    alloc: Global,
    traces: &Vectors,
    contexts: &Contexts,
    value: &Array,
) -> Result<Departure, AllocError>
    ensures { IfOk result (Leaves (finished (executes contexts.now) (Some value.now) [] blank (display value.now)) traces.now contexts.now) }
{
    if executes(contexts) {
        let answer = Box::new(alloc, Some(value.copy()?))?;
        return Ok(Departure::Answers(answer));
    }
    let mark = [Ch::ascii(b' ')];
    let lines = trace_value(alloc, traces, contexts.call(), &mark, value)?;
    Ok(Departure::Ends(lines))
}

/// The newest line shows a value, or gives it where it is a text that is executed.
fn showing(
    alloc: Global,
    traces: &Vectors,
    contexts: &Contexts,
    value: &Array,
) -> Result<Departure, AllocError>
    ensures { IfOk result (Leaves (finished (executes contexts.now) (Some value.now) (shown_lines value.now) blank (display value.now)) traces.now contexts.now) }
{
    if executes(contexts) {
        let answer = Box::new(alloc, Some(value.copy()?))?;
        return Ok(Departure::Answers(answer));
    }
    let mark = [Ch::ascii(b' ')];
    let mut lines = said(alloc, LineKind::Shown, display(alloc, value)?)?;
    let mut traced = trace_value(alloc, traces, contexts.call(), &mark, value)?;
    lines.append(&mut traced)?;
    Ok(Departure::Ends(lines))
}

/// The newest line branches to a value, which is no character.
fn branching(
    alloc: Global,
    traces: &Vectors,
    contexts: &Contexts,
    value: &Array,
) -> Result<Departure, AllocError>
    ensures { IfOk result (Leaves (Aims (aim value.now.items) (display value.now)) traces.now contexts.now) }
{
    let lines = trace_value(alloc, traces, contexts.call(), &arrow(), value)?;
    Ok(Departure::Branches(aim(value), lines))
}

/// How the newest line is left with a value.
fn leaving_with(
    alloc: Global,
    ending: Ending,
    instr: &Instr,
    value: &Array,
    traces: &Vectors,
    contexts: &Contexts,
) -> Result<Departure, AllocError>
    requires value { is_of_value ending ≡ true }
    requires placed { has_place ending ≡ true → IsColumn instr.now.at }
    requires stacked { AreStacked Newest contexts.now }
    ensures { IfOk result (EndsAt instr.now.at (leaving (executes contexts.now) ending (Some (Value value.now) ∷ [])) traces.now contexts.now) }
{
    match ending {
        Ending::Hidden => hiding(alloc, traces, contexts, value),
        Ending::Shown => showing(alloc, traces, contexts, value),
        Ending::Branch => {
            if leads_nowhere(value) {
                let report = failing(alloc, Fault::Domain, contexts, instr.at)?;
                return Ok(Departure::Fails(report));
            }
            branching(alloc, traces, contexts, value)
        }
        _ => unreachable!(),
    }
}

/// How the newest line is left.
fn leaving(
    alloc: Global,
    ending: Ending,
    instr: &Instr,
    operands: Operands<'_>,
    traces: &Vectors,
    contexts: &Contexts,
) -> Result<Departure, AllocError>
    requires there { Offers operands instr.now.arguments }
    requires value { is_of_value ending ≡ true → HoldsValue (fetched_from operands instr.now.arguments) }
    requires placed { has_place ending ≡ true → IsColumn instr.now.at }
    requires stacked { AreStacked Newest contexts.now }
    ensures { IfOk result (EndsAt instr.now.at (left_by ending instr.now operands.entry contexts.now) traces.now contexts.now) }
{
    match ending {
        Ending::Nothing => finishing(alloc, traces, contexts),
        Ending::Escape => {
            let lines = trace(alloc, traces, contexts.call(), &arrow())?;
            Ok(Departure::Escapes(lines))
        }
        Ending::Fail => {
            let report = failing(alloc, Fault::Syntax, contexts, instr.at)?;
            Ok(Departure::Fails(report))
        }
        _ => {
            let Some(value) = one_value(instr.arguments.as_slice(), operands) else {
                unreachable!()
            };
            leaving_with(alloc, ending, instr, value, traces, contexts)
        }
    }
}

/// What the next step is.
#[derive(Drop)]
pub enum NextStep {
    /// That of a phrase of this kind.
    Reduces(PhraseKind),
    /// The newest line, which comes to no phrase, is left so.
    Leaves(Departure),
}

/// What the next step is. It changes nothing yet.
pub fn next_step(
    alloc: Global,
    traces: &Vectors,
    contexts: &Contexts,
) -> Result<NextStep, AllocError>
    requires stacked { AreStacked Newest contexts.now }
    requires runs { IsSome (line_in contexts.now) }
    ensures { IfOk result (IsNextStep traces.now contexts.now) }
{
    let Some(line) = contexts.line() else {
        unreachable!()
    };
    if line.stage() == Stage::Emptied {
        let departure = finishing(alloc, traces, contexts)?;
        return Ok(NextStep::Leaves(departure));
    }
    let instr = line.next();
    let ending = match &instr.action {
        Action::Box => return Ok(NextStep::Reduces(PhraseKind::Lists)),
        Action::Phrase(row) => return Ok(NextStep::Reduces(row_kind(row))),
        Action::End(ending) => *ending,
    };
    let operands = Operands {
        constants: line.constants(),
        stack: line.operands(),
    };
    let departure = leaving(alloc, ending, instr, operands, traces, contexts)?;
    Ok(NextStep::Leaves(departure))
}
