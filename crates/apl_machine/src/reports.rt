//! Output lines.
ghost use Rattle.std.specs.Prelude.{◌≡◌, ◌≢◌, ◌≤◌, ◌∷◌, [], IfOk, None, List};
ghost use Rattle.apl_names.specs.Maps.{Map};
ghost use Rattle.apl_machine_state.specs.Reports.{fault_lines, report_lines};
ghost use Rattle.apl_tokens.specs.Tokens.{IsPlaced};
ghost use Rattle.apl_machine_state.specs.Beginning.{token_fault};
ghost use Rattle.apl_frames.specs.Ends.{IsColumn};
ghost use Rattle.apl_contexts.specs.Contexts.{AreStacked, Place, dressed};
ghost use Rattle.apl_contexts.specs.Stacks.{contexts_of};

use apl_charset::{Ch, Text};
use apl_contexts::{Context, Stack};
use apl_faults::{Call, Fault, report};
use apl_machine_state::{Blame, LineKind, OutLine};
use apl_phrases::said;
use apl_tokens::TokenError;
use std::alloc::{AllocError, Global};

/// The report of a fault in a typed text.
pub fn typed_fault(
    alloc: Global,
    fault: Fault,
    text: &[Ch],
    column: usize,
) -> Result<Vec<OutLine>, AllocError>
    requires { (1 ≤ column) × (column ≤ 501) }
    ensures { IfOk result (λ lines. lines.items ≡ report_lines fault None text.now column) }
{
    let texts = report(alloc, fault, None, text, column)?;
    said(alloc, LineKind::Report(fault, Blame::Typed(column)), texts)
}

/// The report of a fault in the line of a context alone.
fn line_fault(
    alloc: Global,
    fault: Fault,
    context: &Context,
    column: usize,
) -> Result<Vec<OutLine>, AllocError>
    requires { IsColumn column }
    ensures { IfOk result (λ lines. (ms : List Map) → lines.items ≡ fault_lines fault column (dressed ms (context.now ∷ []))) }
{
    match context {
        Context::Statement(statement) => {
            typed_fault(alloc, fault, statement.text.as_slice(), column)
        }
        // No fault is reported in a text that is executed.
        Context::Execute(_) => Ok(Vec::new(alloc)),
        Context::Call(call) => {
            let place = Call {
                name: call.definition().header().name.as_slice(),
                line: call.at(),
            };
            let texts = report(alloc, fault, Some(place), call.text(), column)?;
            said(alloc, LineKind::Report(fault, Blame::Call(column)), texts)
        }
    }
}

/// The report of a fault at a column of the newest of these contexts. One in a text that is executed
/// is reported where it is executed.
pub fn context_fault(
    alloc: Global,
    fault: Fault,
    contexts: Stack<'_>,
    column: usize,
) -> Result<Vec<OutLine>, AllocError>
    requires stacked { (p : Place) × AreStacked p (contexts_of contexts) }
    requires column { IsColumn column }
    ensures { IfOk result (λ lines. (ms : List Map) → lines.items ≡ fault_lines fault column (dressed ms (contexts_of contexts.entry))) }
{
    let Some((context, place)) = contexts.blamed(column) else {
        return Ok(Vec::new(alloc));
    };
    line_fault(alloc, fault, context, place)
}

/// The report of a typed text that is no line. One that was not read for an allocation that failed has none.
pub fn token_fault(
    alloc: Global,
    error: TokenError,
    text: &[Ch],
) -> Result<Vec<OutLine>, AllocError>
    requires { IsPlaced error }
    ensures lines { IfOk result (λ lines. lines.items ≡ token_fault text.now error) }
    ensures memory { IfOk result (λ lines. error ≢ TokenError.Memory) }
{
    match error {
        TokenError::Quote { column } => typed_fault(alloc, Fault::Syntax, text, column),
        TokenError::Unbalanced { column } => typed_fault(alloc, Fault::Syntax, text, column),
        TokenError::Stray { column } => typed_fault(alloc, Fault::Syntax, text, column),
        TokenError::Limit { column } => typed_fault(alloc, Fault::Limit, text, column),
        TokenError::TooLong { column } => typed_fault(alloc, Fault::Limit, text, column),
        TokenError::Memory => Err(AllocError),
    }
}
