//! Which instructions are well made.
ghost use Rattle.std.specs.Prelude.{◌≡◌, ◌&&◌, map, slice_index};
ghost use Rattle.std.specs.List.{list_all};
ghost use Rattle.apl_code.specs.Names.{is_letter, is_in_name, IsName};
ghost use Rattle.apl_code.specs.Instr.{IsValue, IsOperand, AreOperands, IsSlot, AreSlots, Takes};
ghost use Rattle.apl_code.specs.Instr.{IsFunction, IsVariable, IsRow, IsAction, IsPlace, IsInstr};
ghost use Rattle.apl_code.specs.declared.instr.Action.TheVariants.{Phrase};
ghost use Rattle.apl_listing.specs.inside.Tests.{Tells, operand_of};

use crate::reading::is_letter;
use apl_charset::Ch;
use apl_code::{Action, Ending, Function, Instr, Row, Source, Variable};
use apl_symbols::Name;

/// Whether a name may go on with it.
fn is_in_name(c: Ch) -> bool
    ensures { result ≡ is_in_name c }
{
    is_letter(c) || c.code().is_ascii_digit()
}

fn all_in_name(text: &[Ch]) -> bool
    ensures { result ≡ list_all is_in_name text.now }
{
    text.iter().all(|c| is_in_name(*c))
}

/// Whether the first character is a letter.
fn begins_name(text: &[Ch]) -> bool
    ensures { result ≡ is_letter (slice_index text.now 0) }
{
    match text {
        [first, ..] => is_letter(*first),
        [] => false,
    }
}

fn is_name(name: Name) -> bool
    ensures { Tells result (IsName name) }
{
    let text = name.as_slice();
    begins_name(text) && all_in_name(text)
}

fn is_function(function: Function) -> bool
    ensures { Tells result (IsFunction function) }
{
    match function {
        Function::Name(name) => is_name(name),
        Function::Primitive(_) | Function::System(_) => true,
    }
}

fn is_variable(variable: Variable) -> bool
    ensures { Tells result (IsVariable variable) }
{
    match variable {
        Variable::Name(name) => is_name(name),
        Variable::System(_) => true,
    }
}

fn is_row(row: Row) -> bool
    ensures { Tells result (IsRow row) }
{
    match row {
        Row::Group | Row::Index(_) | Row::Select | Row::Show => true,
        Row::Read(v) | Row::Call(v) | Row::Assign(v) | Row::AssignIndexed(v) => is_variable(v),
        Row::Monadic(f)
        | Row::MonadicAxis(f)
        | Row::Reduce(f, _)
        | Row::ReduceAxis(f, _)
        | Row::Dyadic(f)
        | Row::DyadicAxis(f)
        | Row::Outer(f) => is_function(f),
        Row::Inner(f, g) => is_function(f) && is_function(g),
    }
}

fn is_action(action: Action) -> bool
    ensures { Tells result (IsAction action) }
{
    match action {
        Action::Phrase(row) => is_row(row),
        Action::Box | Action::End(_) => true,
    }
}

/// What an operand is.
#[derive(Clone, Copy)]
enum Shape {
    Value,
    List,
}

fn is_value(source: Source) -> bool
    ensures { Tells result (IsValue source) }
{
    match source {
        Source::Stack => true,
        Source::Constant(k) => k <= 499,
    }
}

fn is_operand(shape: Shape, source: Option<Source>) -> bool
    ensures { Tells result (IsOperand (operand_of shape) source) }
{
    match source {
        None => false,
        Some(source) => match shape {
            Shape::Value => is_value(source),
            Shape::List => match source {
                Source::Stack => true,
                Source::Constant(_) => false,
            },
        },
    }
}

/// Whether these are the operands of an action. No action has more than three shapes.
fn are_operands(shapes: &[Shape], sources: &[Option<Source>]) -> bool
    ensures { Tells result (AreOperands (map operand_of shapes.now) sources.now) }
{
    match shapes {
        [] => match sources {
            [] => true,
            [_, ..] => false,
        },
        [shape, others @ ..] => match sources {
            [] => false,
            [source, rest @ ..] => { is_operand(*shape, *source) && are_operands(others, rest) }
        },
    }
}

fn is_slot(source: Option<Source>) -> bool
    ensures { Tells result (IsSlot source) }
{
    match source {
        None => true,
        Some(source) => is_value(source),
    }
}

fn are_slots(sources: &[Option<Source>]) -> bool
    ensures { Tells result (AreSlots sources.now) }
{
    for source in sources {
        if !is_slot(*source) {
            return false;
        }
    }
    true
}

/// Whether a row takes these operands.
fn row_takes(row: Row, sources: &[Option<Source>]) -> bool
    ensures { Tells result (Takes (Phrase row) sources.now) }
{
    match row {
        Row::Index(_) => false,
        Row::Read(_) | Row::Call(_) => are_operands(&[], sources),
        Row::Group | Row::Monadic(_) | Row::Reduce(_, _) | Row::Assign(_) | Row::Show => {
            are_operands(&[Shape::Value], sources)
        }
        Row::Dyadic(_) | Row::Inner(_, _) | Row::Outer(_) => {
            are_operands(&[Shape::Value, Shape::Value], sources)
        }
        Row::Select => are_operands(&[Shape::Value, Shape::List], sources),
        Row::MonadicAxis(_) | Row::ReduceAxis(_, _) | Row::AssignIndexed(_) => {
            are_operands(&[Shape::List, Shape::Value], sources)
        }
        Row::DyadicAxis(_) => { are_operands(&[Shape::Value, Shape::List, Shape::Value], sources) }
    }
}

fn takes(action: Action, sources: &[Option<Source>]) -> bool
    ensures { Tells result (Takes action sources.now) }
{
    match action {
        Action::Box => !sources.is_empty() && are_slots(sources),
        Action::Phrase(row) => row_takes(row, sources),
        Action::End(Ending::Branch | Ending::Shown | Ending::Hidden) => {
            are_operands(&[Shape::Value], sources)
        }
        Action::End(Ending::Escape | Ending::Nothing | Ending::Fail) => are_operands(&[], sources),
    }
}

fn is_place(action: Action, at: usize) -> bool
    ensures { Tells result (IsPlace action at) }
{
    match action {
        Action::End(Ending::Shown | Ending::Hidden | Ending::Nothing) => at == 0,
        Action::End(Ending::Branch | Ending::Escape | Ending::Fail)
        | Action::Box
        | Action::Phrase(_) => 1 <= at && at <= 500,
    }
}

/// Whether an instruction is well made.
pub(crate) fn is_instr(instr: &Instr) -> bool
    ensures { Tells result (IsInstr instr.now) }
{
    is_action(instr.action)
        && takes(instr.action, instr.arguments.as_slice())
        && is_place(instr.action, instr.at)
}
