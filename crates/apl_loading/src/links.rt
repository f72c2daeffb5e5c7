//! What may stand above what.
ghost use Rattle.std.specs.Prelude.{◌≡◌, ◌↔◌, [], IsTrue, List, None};
ghost use Rattle.apl_parts.specs.Pieces.{Standing};
ghost use Rattle.apl_parts.specs.Restored.{waiting_in};
ghost use Rattle.apl_parts.specs.declared.parts.ContextPart.TheVariants as parts;
ghost use Rattle.apl_parts.specs.declared.parts.StatementPart.{StatementPart};
ghost use Rattle.apl_saved.specs.Rules.{Calls, IsStatement};
ghost use Rattle.apl_loading.specs.inside.Made.{Fits, MayStand};

use apl_code::{Action, Function, Row, Variable};
use apl_defn::Header;
use apl_parts::ContextPart;
use apl_symbols::{Name, Primitive};
use apl_workspace_file::ContextField;

fn is_headed(name: &Name, header: &Header) -> bool
    ensures { IsTrue result ↔ (name.now ≡ header.now.name) }
{
    *name == header.name
}

/// Whether an instruction is a call of the function with this header, of a valence that it takes.
fn calls_function(action: Action, header: &Header) -> bool
    ensures { (c : Standing) → c.definition.header ≡ header.now → (IsTrue result ↔ Calls action (parts.Call c)) }
{
    let Action::Phrase(row) = &action else {
        return false;
    };
    match row {
        Row::Call(Variable::Name(name)) => is_headed(name, header) && header.right.is_none(),
        Row::Monadic(Function::Name(name)) => is_headed(name, header) && header.right.is_some(),
        Row::Dyadic(Function::Name(name)) => is_headed(name, header) && header.left.is_some(),
        _ => false,
    }
}

/// Whether an instruction executes a text.
fn is_execute(action: Action) -> bool
    ensures { (s : StatementPart) → (IsTrue result ↔ Calls action (parts.Execute s)) }
{
    let Action::Phrase(row) = action else {
        return false;
    };
    matches!(row, Row::Monadic(Function::Primitive(Primitive::Execute)))
}

/// Whether an instruction calls what stands above it.
fn calls(action: Action, above: &ContextPart) -> bool
    ensures { IsTrue result ↔ Calls action above.now }
{
    match above {
        ContextPart::Statement(_) => false,
        ContextPart::Call(call) => calls_function(action, call.function().definition().header()),
        ContextPart::Execute(_) => is_execute(action),
    }
}

fn is_statement(context: &ContextPart) -> bool
    ensures { IsTrue result ↔ IsStatement context.now }
{
    matches!(context, ContextPart::Statement(_))
}

/// Whether a context may stand above one that awaits the answer of this instruction, or none.
fn fits(awaits: Option<Action>, above: &ContextPart) -> bool
    ensures { IsTrue result ↔ Fits awaits above.now }
{
    match awaits {
        None => is_statement(above),
        Some(action) => calls(action, above),
    }
}

/// Whether a context awaits no answer.
fn is_suspended(context: &ContextPart) -> bool
    ensures { IsTrue result ↔ (waiting_in context.now ≡ None) }
{
    match context {
        ContextPart::Call(call) => call.rest().is_none(),
        ContextPart::Statement(_) | ContextPart::Execute(_) => false,
    }
}

/// Whether a context may stand above one that awaits the answer of this instruction, or none, and
/// beneath these.
pub(crate) fn may_stand(
    awaits: Option<Action>,
    behind: &[ContextField],
    context: &ContextPart,
) -> bool
    ensures { IsTrue result ↔ MayStand awaits behind.now context.now }
{
    fits(awaits, context) && (!behind.is_empty() || is_suspended(context))
}
