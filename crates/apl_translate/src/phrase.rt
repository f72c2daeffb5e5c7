//! The phrase table.
ghost use Rattle.std.specs.Prelude.{◌≡◌, ◌≤◌, ◌+◌, ◌&&◌, length, IfSome, Option, Some, None, option_copied, map, List, [], ◌∷◌};
ghost use Rattle.apl_translate.specs.Phrase.{when, K, W, is_scalar, ends, value_ends, opens, slots_width};
ghost use Rattle.apl_translate.specs.Phrase.{at_value, at_variable, at_niladic, at_function, at_open, at_quad, row};
ghost use Rattle.apl_translate.specs.Scan.{kind_before};
ghost use Rattle.apl_translate.specs.Translation.{kinds, kind_of, is_value};

use crate::form::{Form, Placed, Word};
use apl_code::{Function, Row, Variable};
use apl_symbols::Operator;

/// A scalar dyadic function.
fn is_scalar(f: Function) -> bool
    ensures { result ≡ is_scalar f }
{
    match f {
        Function::Primitive(primitive) => primitive.is_scalar(),
        Function::Name(_) | Function::System(_) => false,
    }
}

/// Whether an item is a value.
pub fn is_value(form: Form) -> bool
    ensures { result ≡ is_value (kind_of form) }
{
    matches!(form, Form::Constant(_) | Form::Given)
}

/// A value that stands before these items ends.
fn ends(items: &[Placed]) -> bool
    ensures { result ≡ ends (kinds items.now) }
{
    match items {
        [] => true,
        [first, ..] => matches!(
            first.form,
            Form::Word(
                Word::CloseParenthesis | Word::CloseBracket | Word::CloseAxis | Word::Semicolon
            )
        ),
    }
}

/// A value that ends stands here.
fn value_ends(items: &[Placed]) -> bool
    ensures { result ≡ value_ends (kinds items.now) }
{
    match items {
        [
            Placed {
                form: Form::Constant(_) | Form::Given,
                ..
            },
            rest @ ..,
        ] => ends(rest),
        _ => false,
    }
}

fn when(condition: bool, row: Row) -> Option<Row>
    ensures { result ≡ when condition row }
{
    if condition { Some(row) } else { None }
}

/// The rows that begin with a value, by what stands after it.
fn at_value(items: &[Placed]) -> Option<Row>
    ensures { result ≡ at_value (kinds items.now) }
{
    let [first, rest @ ..] = items else {
        return None;
    };
    match first.form {
        Form::Slots => after_slots(rest),
        Form::Word(Word::Function(f)) => after_function(f, rest),
        Form::Word(Word::Jot) => after_jot(rest),
        _ => None,
    }
}

/// After a value and an index list. Nothing is selected of a value that is to be assigned to.
fn after_slots(items: &[Placed]) -> Option<Row>
    ensures { result ≡ at_value (K ∷ kinds items.now) }
{
    match items {
        [
            Placed {
                form: Form::Word(Word::LeftArrow),
                ..
            },
            ..
        ] => None,
        _ => Some(Row::Select),
    }
}

/// After a value and a function.
fn after_function(f: Function, items: &[Placed]) -> Option<Row>
    ensures { result ≡ at_value (W (Word.Function f) ∷ kinds items.now) }
{
    let [first, rest @ ..] = items else {
        return None;
    };
    match first.form {
        Form::Constant(_) | Form::Given => when(ends(rest), Row::Dyadic(f)),
        Form::Slots => when(value_ends(rest), Row::DyadicAxis(f)),
        Form::Word(Word::Dot) => after_dot(f, rest),
        _ => None,
    }
}

/// After a value, a function and a dot.
fn after_dot(f: Function, items: &[Placed]) -> Option<Row>
    ensures { result ≡ at_value (W (Word.Function f) ∷ W Word.Dot ∷ kinds items.now) }
{
    let [first, rest @ ..] = items else {
        return None;
    };
    match first.form {
        Form::Word(Word::Function(g)) => inner(f, g, rest),
        _ => None,
    }
}

fn inner(f: Function, g: Function, items: &[Placed]) -> Option<Row>
    ensures { result ≡ at_value (W (Word.Function f) ∷ W Word.Dot ∷ W (Word.Function g) ∷ kinds items.now) }
{
    let [first, rest @ ..] = items else {
        return None;
    };
    match first.form {
        Form::Constant(_) | Form::Given => {
            let scalars = both_scalar(f, g);
            when(scalars && ends(rest), Row::Inner(f, g))
        }
        _ => None,
    }
}

/// After a value and a jot.
fn after_jot(items: &[Placed]) -> Option<Row>
    ensures { result ≡ at_value (W Word.Jot ∷ kinds items.now) }
{
    let [first, rest @ ..] = items else {
        return None;
    };
    match first.form {
        Form::Word(Word::Dot) => after_jot_dot(rest),
        _ => None,
    }
}

/// After a value, a jot and a dot.
fn after_jot_dot(items: &[Placed]) -> Option<Row>
    ensures { result ≡ at_value (W Word.Jot ∷ W Word.Dot ∷ kinds items.now) }
{
    let [first, rest @ ..] = items else {
        return None;
    };
    match first.form {
        Form::Word(Word::Function(g)) => outer(g, rest),
        _ => None,
    }
}

fn outer(g: Function, items: &[Placed]) -> Option<Row>
    ensures { result ≡ at_value (W Word.Jot ∷ W Word.Dot ∷ W (Word.Function g) ∷ kinds items.now) }
{
    let [first, rest @ ..] = items else {
        return None;
    };
    match first.form {
        Form::Constant(_) | Form::Given => when(is_scalar(g) && ends(rest), Row::Outer(g)),
        _ => None,
    }
}

/// The rows that begin with a variable.
fn at_variable(v: Variable, items: &[Placed]) -> Option<Row>
    ensures { result ≡ at_variable v (kinds items.now) }
{
    let [first, rest @ ..] = items else {
        return Some(Row::Read(v));
    };
    match first.form {
        Form::Slots => at_indexed(v, rest),
        Form::Word(Word::LeftArrow) => when(value_ends(rest), Row::Assign(v)),
        Form::Word(Word::OpenBracket) => None,
        _ => Some(Row::Read(v)),
    }
}

/// The rows that begin with a variable and an index list.
fn at_indexed(v: Variable, items: &[Placed]) -> Option<Row>
    ensures { result ≡ at_variable v (K ∷ kinds items.now) }
{
    let [first, rest @ ..] = items else {
        return Some(Row::Read(v));
    };
    match first.form {
        Form::Word(Word::LeftArrow) => when(value_ends(rest), Row::AssignIndexed(v)),
        _ => Some(Row::Read(v)),
    }
}

/// The row of a function without arguments.
fn at_niladic(n: Variable, items: &[Placed]) -> Option<Row>
    ensures { result ≡ at_niladic n (kinds items.now) }
{
    match items {
        [
            Placed {
                form: Form::Word(Word::LeftArrow),
                ..
            },
            ..
        ] => None,
        _ => Some(Row::Call(n)),
    }
}

/// The rows that begin with a function without a left argument.
fn at_function(f: Function, items: &[Placed]) -> Option<Row>
    ensures { result ≡ at_function f (kinds items.now) }
{
    let [first, rest @ ..] = items else {
        return None;
    };
    match first.form {
        Form::Constant(_) | Form::Given => when(ends(rest), Row::Monadic(f)),
        Form::Slots => when(value_ends(rest), Row::MonadicAxis(f)),
        Form::Word(Word::Operator(m)) => after_operator(f, m, rest),
        _ => None,
    }
}

fn after_operator(f: Function, m: Operator, items: &[Placed]) -> Option<Row>
    ensures { result ≡ at_function f (W (Word.Operator m) ∷ kinds items.now) }
{
    let [first, rest @ ..] = items else {
        return None;
    };
    match first.form {
        Form::Constant(_) | Form::Given => when(is_scalar(f) && ends(rest), Row::Reduce(f, m)),
        Form::Slots => when(is_scalar(f) && value_ends(rest), Row::ReduceAxis(f, m)),
        _ => None,
    }
}

fn at_open(items: &[Placed]) -> Option<Row>
    ensures { result ≡ at_open (kinds items.now) }
{
    match items {
        [
            Placed {
                form: Form::Constant(_) | Form::Given,
                ..
            },
            Placed {
                form: Form::Word(Word::CloseParenthesis),
                ..
            },
            ..
        ] => Some(Row::Group),
        _ => None,
    }
}

fn at_quad(items: &[Placed]) -> Option<Row>
    ensures { result ≡ at_quad (kinds items.now) }
{
    match items {
        [
            Placed {
                form: Form::Word(Word::LeftArrow),
                ..
            },
            rest @ ..,
        ] => when(value_ends(rest), Row::Show),
        _ => None,
    }
}

/// A function after this item has no left argument.
fn opens(before: Option<&Placed>) -> bool
    ensures { result ≡ opens (kind_before (option_copied before.entry)) }
{
    match before {
        None => true,
        Some(
            Placed {
                form: Form::Word(word),
                ..
            },
        ) => matches!(
            word,
            Word::LeftArrow
                | Word::RightArrow
                | Word::OpenParenthesis
                | Word::OpenBracket
                | Word::Semicolon
                | Word::Function(_)
                | Word::Operator(_)
                | Word::CloseAxis
        ),
        Some(_) => false,
    }
}

fn both_scalar(f: Function, g: Function) -> bool
    ensures { result ≡ (is_scalar f && is_scalar g) }
{
    is_scalar(f) && is_scalar(g)
}

/// How many items the slots of an index list are, its `]` with them.
fn slots_width(items: &[Placed]) -> Option<usize>
    ensures value { result ≡ slots_width (kinds items.now) }
    ensures within { IfSome result (λ n. n ≤ length items.now) }
{
    let [first, rest @ ..] = items else {
        return None;
    };
    match first.form {
        Form::Word(Word::CloseBracket | Word::CloseAxis) => Some(1),
        Form::Word(Word::Semicolon) => Some(slots_width(rest)? + 1),
        Form::Constant(_) | Form::Given => {
            if !ends(rest) {
                return None;
            }
            Some(slots_width(rest)? + 1)
        }
        _ => None,
    }
}

/// The row of the phrase that begins with the first item, after the item before it.
pub fn row(before: Option<&Placed>, items: &[Placed]) -> Option<Row>
    ensures value { result ≡ row (kind_before (option_copied before.entry)) (kinds items.now) }
{
    let [first, rest @ ..] = items else {
        return None;
    };
    match first.form {
        Form::Constant(_) | Form::Given => at_value(rest),
        Form::Slots => None,
        Form::Word(word) => at_word(word, before, rest),
    }
}

fn at_word(word: Word, before: Option<&Placed>, items: &[Placed]) -> Option<Row>
    ensures value { result ≡ row (kind_before (option_copied before.entry)) (W word ∷ kinds items.now) }
{
    match word {
        Word::Variable(v) => at_variable(v, items),
        Word::Niladic(n) => at_niladic(n, items),
        Word::Function(f) => {
            if opens(before) {
                at_function(f, items)
            } else {
                None
            }
        }
        Word::OpenParenthesis => at_open(items),
        Word::OpenBracket => Some(Row::Index(slots_width(items)? + 1)),
        Word::Quad => at_quad(items),
        _ => None,
    }
}
