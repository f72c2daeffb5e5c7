//! What traced lines write, and what stops report.
ghost use Rattle.std.specs.Prelude.{◌≡◌, ◌≤◌, ◌++◌, [], All, length, map, option_copied, pos, true, IfNone, IfOk, IfSome};
ghost use Rattle.apl_arrays.specs.Cells.{Numbers};
ghost use Rattle.apl_arrays.specs.Simple.{vector};
ghost use Rattle.apl_faults.specs.Report.{place};
ghost use Rattle.apl_format.specs.Display.{display};
ghost use Rattle.apl_machine_state.specs.declared.output.LineKind.TheVariants.{Trace};
ghost use Rattle.apl_machine_state.specs.Reports.{lines_of};
ghost use Rattle.apl_machine_state.specs.State.{stop_report};
ghost use Rattle.apl_machine_state.specs.Watching.{behind, lines_array};
ghost use Rattle.apl_machine.specs.inside.Traces.{AreFew, IsTraced, IsUntraced, trace_by};

use apl_arrays::{Array, Ravel};
use apl_charset::{Ch, Text};
use apl_contexts::Call;
use apl_defn::Definition;
use apl_faults::{Call as Place, place};
use apl_format::display;
use apl_machine_state::{LineKind, OutLine};
use apl_phrases::said;
use apl_vectors::Vectors;
use std::alloc::{AllocError, Global};

/// The place of a line of a function.
fn place_in(alloc: Global, definition: &Definition, at: usize) -> Result<Text, AllocError>
    ensures { IfOk result (λ text. text ≡ place (definition.now.header.name, at)) }
{
    place(
        alloc,
        Place {
            name: definition.header().name.as_slice(),
            line: at,
        },
    )
}

/// The report of a stop before a line of a function.
pub(crate) fn stop_report(
    alloc: Global,
    definition: &Definition,
    at: usize,
) -> Result<OutLine, AllocError>
    ensures { IfOk result (λ line. line ≡ stop_report definition.now at) }
{
    let text = place_in(alloc, definition, at)?;
    Ok(OutLine {
        text,
        kind: LineKind::Stop,
    })
}

/// The call, where there is one and its line is traced.
fn traced<'a>(traces: &Vectors, call: Option<&'a Call>) -> Option<&'a Call>
    ensures some { IfSome result (λ c. IsTraced traces.now (option_copied call.entry) c.now) }
    ensures none { IfNone result (IsUntraced traces.now (option_copied call.entry)) }
{
    let call = call?;
    if traces.has(&call.definition().header().name, call.at()) {
        Some(call)
    } else {
        None
    }
}

/// These lines, the first of them behind a prefix, which stands alone where there are none.
fn behind(mut prefix: Vec<Ch>, mut lines: Vec<Text>) -> Result<Vec<Text>, AllocError>
    ensures { IfOk result (λ out. out.items ≡ behind prefix.items lines.items) }
{
    if let Some(first) = lines.as_mut_slice().first_mut() {
        prefix.extend_from_slice(first.as_slice())?;
        *first = Text::new(prefix);
    } else {
        lines.push(Text::new(prefix))?;
    }
    Ok(lines)
}

/// What the line of a call writes as it ends, if it is traced: its place, this mark, and these
/// lines.
fn trace_call(
    alloc: Global,
    call: &Call,
    mark: &[Ch],
    lines: Vec<Text>,
) -> Result<Vec<OutLine>, AllocError>
    ensures { IfOk result (λ out. out.items ≡ lines_of Trace (behind (place (call.now.definition.header.name, call.now.at) ++ mark.now) lines.items)) }
{
    let mut prefix = place_in(alloc, call.definition(), call.at())?.into_chars();
    prefix.extend_from_slice(mark)?;
    said(alloc, LineKind::Trace, behind(prefix, lines)?)
}

/// What a line writes as it ends without a value, if it is that of a call and traced: its place and
/// this mark.
pub(crate) fn trace(
    alloc: Global,
    traces: &Vectors,
    call: Option<&Call>,
    mark: &[Ch],
) -> Result<Vec<OutLine>, AllocError>
    ensures { IfOk result (λ out. out.items ≡ trace_by traces.now (option_copied call.entry) mark.now []) }
{
    match traced(traces, call) {
        Some(call) => trace_call(alloc, call, mark, Vec::new(alloc)),
        None => Ok(Vec::new(alloc)),
    }
}

/// What a line writes as it ends with a value, if it is that of a call and traced: its place, this
/// mark, and the lines of the value's display, the first of them behind the mark.
pub(crate) fn trace_value(
    alloc: Global,
    traces: &Vectors,
    call: Option<&Call>,
    mark: &[Ch],
    value: &Array,
) -> Result<Vec<OutLine>, AllocError>
    ensures { IfOk result (λ out. out.items ≡ trace_by traces.now (option_copied call.entry) mark.now (display value.now)) }
{
    match traced(traces, call) {
        Some(call) => trace_call(alloc, call, mark, display(alloc, value)?),
        None => Ok(Vec::new(alloc)),
    }
}

/// Line numbers as the numbers of an array.
fn numbers_of(alloc: Global, lines: &[usize]) -> Result<Vec<i64>, AllocError>
    requires { All (λ n. n ≤ 999) lines.now }
    ensures { IfOk result (λ numbers. numbers.items ≡ map pos lines.now) }
{
    let mut numbers = Vec::with_capacity(alloc, lines.len())?;
    for line in lines {
        numbers.push(*line as i64)?;
    }
    Ok(numbers)
}

/// A vector of line numbers of a function as an array.
pub(crate) fn lines_array(alloc: Global, lines: &[usize]) -> Result<Array, AllocError>
    requires { AreFew lines.now }
    ensures { IfOk result (λ array. array ≡ lines_array lines.now) }
{
    let numbers = numbers_of(alloc, lines)?;
    Array::vector(alloc, Ravel::wide(numbers))
}
