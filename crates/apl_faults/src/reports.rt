// Reports of faults.
ghost use Rattle.std.specs.Prelude.{◌≡◌, ◌≤◌, ◌+◌, ◌-◌, IfOk, OnOk, replicate, ◌++◌, ◌∷◌, []};
ghost use Rattle.apl_faults.specs.Report.{name_of, place, prefix, call_of, report};

use crate::fault::Fault;
use apl_charset::{Ch, Text, push_ascii, push_number};
use std::alloc::{AllocError, Global};

/// A standing call by its function's name and the number of its line.
#[derive(Clone, Copy)]
pub struct Call<'a> {
    pub name: &'a [Ch],
    pub line: usize,
}

/// Adds the name of a call and the number of its line in brackets.
#[tactic(auto, unfolding(crate::specs::Report::place))]
fn push_place(out: &mut Vec<Ch>, call: Call) -> Result<(), AllocError>
    ensures { OnOk result (out.new.items ≡ out.old.items ++ place (call.entry.name.now, call.entry.line)) }
{
    out.extend_from_slice(call.name)?;
    push_ascii(out, b"[")?;
    push_number(out, call.line as u64)?;
    push_ascii(out, b"]")?;
    Ok(())
}

/// A line of a call, as state indicators, stops and traces show it: `FACT[3]`.
pub fn place(alloc: Global, call: Call) -> Result<Text, AllocError>
    ensures { IfOk result (λ t. t ≡ place (call.entry.name.now, call.entry.line)) }
{
    let mut out = Vec::new(alloc);
    push_place(&mut out, call)?;
    Ok(Text::new(out))
}

/// What stands before the text of the faulty line.
#[tactic(auto, unfolding(crate::specs::Report::prefix))]
fn prefix(alloc: Global, call: Option<Call>) -> Result<Vec<Ch>, AllocError>
    ensures { IfOk result (λ v. v.items ≡ prefix (call_of call.entry)) }
{
    let mut out = Vec::new(alloc);
    match call {
        None => push_ascii(&mut out, b"      ")?,
        Some(call) => {
            push_place(&mut out, call)?;
            push_ascii(&mut out, b" ")?;
        }
    }
    Ok(out)
}

/// Adds blanks.
fn push_blanks(out: &mut Vec<Ch>, count: usize) -> Result<(), AllocError>
    ensures { OnOk result (out.new.items ≡ out.old.items ++ replicate count 32) }
{
    for _ in 0..count {
        out.push(Ch::ascii(b' '))?;
    }
    Ok(())
}

/// A caret under a column, counted from 1, of a text that stands behind `before` blanks.
fn caret(alloc: Global, before: usize, column: usize) -> Result<Text, AllocError>
    requires { 1 ≤ column }
    ensures { IfOk result (λ t. t ≡ replicate (before + (column - 1)) 32 ++ 94 ∷ []) }
{
    let mut out = Vec::new(alloc);
    // Two runs of blanks, since a sum of the two might not fit a usize.
    push_blanks(&mut out, before)?;
    push_blanks(&mut out, column - 1)?;
    out.push(Ch::ascii(b'^'))?;
    Ok(Text::new(out))
}

/// The first line of a fault's report: its name.
pub fn fault_line(alloc: Global, fault: Fault) -> Result<Text, AllocError>
    ensures { IfOk result (λ t. t ≡ name_of fault) }
{
    let mut out = Vec::new(alloc);
    push_ascii(&mut out, fault.name())?;
    Ok(Text::new(out))
}

/// The lines of a fault's report: its name, the faulty line `text` behind its call, or behind six
/// blanks where it was typed, and a caret under `column` of the text, counted from 1.
#[tactic(auto, unfolding(crate::specs::Report::report))]
pub fn report(
    alloc: Global,
    fault: Fault,
    call: Option<Call>,
    text: &[Ch],
    column: usize,
) -> Result<Vec<Text>, AllocError>
    requires { 1 ≤ column }
    ensures { IfOk result (λ v. v.items ≡ report fault (call_of call.entry) text.now column) }
{
    let mut lines = Vec::new(alloc);
    lines.push(fault_line(alloc, fault)?)?;
    if fault.is_alone() {
        return Ok(lines);
    }
    let mut second = prefix(alloc, call)?;
    let before = second.len();
    second.extend_from_slice(text)?;
    lines.push(Text::new(second))?;
    lines.push(caret(alloc, before, column)?)?;
    Ok(lines)
}
