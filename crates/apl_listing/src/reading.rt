//! What a line says, read generously: what is read is compared with the line that it has.
ghost use Rattle.std.specs.Prelude.{◌≡◌, ◌<◌, ◌-◌, [], map, length, IfOk};
ghost use Rattle.apl_code.specs.Names.{is_letter};
ghost use Rattle.apl_listing.specs.Listing.{fields, action_words, action_list};
ghost use Rattle.apl_listing.specs.inside.Reading.{until, past, words, number_of, source_of, function_of, variable_of, operator_of};
ghost use Rattle.apl_listing.specs.inside.Reading.{ending_named, shown, plain_named, along, function_named, row_named, action_of, action_at, refilled, instr_at};

use crate::writing::{index_list, push_action};
use apl_charset::{Ch, is_word};
use apl_code::{Action, Arguments, Ending, Function, Instr, Row, Source, Variable};
use apl_symbols::{Name, Operator, Symbol, SystemName};
use std::alloc::{AllocError, Global};

/// What stands before the first `mark`, and after it.
pub(crate) fn split(text: &[Ch], mark: char) -> (&[Ch], &[Ch])
    ensures before { result.0.now ≡ until mark text.now }
    ensures after { result.1.now ≡ past mark text.now }
{
    for i in 0..text.len() {
        if text[i].code() == mark {
            return (&text[..i], &text[i + 1..]);
        }
    }
    (text, &text[text.len()..])
}

/// Whether a name may begin with it.
pub(crate) fn is_letter(c: Ch) -> bool
    ensures { result ≡ is_letter c }
{
    let c = c.code();
    c.is_ascii_alphabetic() || c == '∆' || c == '⍙' || c == '_'
}

fn digit(c: Ch) -> usize
    ensures value { result ≡ c - 48 }
    ensures small { result < 2000000 }
{
    (c.code() as usize).saturating_sub(48)
}

fn number_of(digits: &[Ch]) -> usize
    ensures { result ≡ number_of digits.now }
{
    match digits {
        [a] => digit(*a),
        [a, b] => 10 * digit(*a) + digit(*b),
        [a, b, c] => 100 * digit(*a) + 10 * digit(*b) + digit(*c),
        _ => 0,
    }
}

fn source_of(word: &[Ch]) -> Option<Source>
    ensures { result ≡ source_of word.now }
{
    let [first, digits @ ..] = word else {
        return None;
    };
    if first.code() == 'S' {
        Some(Source::Stack)
    } else if first.code() == '#' {
        Some(Source::Constant(number_of(digits)))
    } else {
        None
    }
}

fn function_of(word: &[Ch]) -> Option<Function>
    ensures { result ≡ function_of word.now }
{
    let [first, letters @ ..] = word else {
        return None;
    };
    if is_letter(*first) {
        return Some(Function::Name(Name::new(word)?));
    }
    if first.code() == '⎕' {
        return Some(Function::System(SystemName::new(letters)?));
    }
    match Symbol::new(*first) {
        Some(Symbol::Primitive(primitive)) => Some(Function::Primitive(primitive)),
        _ => None,
    }
}

fn variable_of(word: &[Ch]) -> Option<Variable>
    ensures { result ≡ variable_of word.now }
{
    let [first, letters @ ..] = word else {
        return None;
    };
    if is_letter(*first) {
        return Some(Variable::Name(Name::new(word)?));
    }
    Some(Variable::System(SystemName::new(letters)?))
}

fn operator_of(word: &[Ch]) -> Operator
    ensures { result ≡ operator_of word.now }
{
    let [glyph, ..] = word else {
        return Operator::SlopeBar;
    };
    match glyph.code() {
        '/' => Operator::Slash,
        '⌿' => Operator::SlashBar,
        '\\' => Operator::Slope,
        _ => Operator::SlopeBar,
    }
}

/// The end of a line of this name, and of the word behind it.
fn ending_named(name: &[Ch], word: &[Ch]) -> Option<Ending>
    ensures { result ≡ ending_named name.now word.now }
{
    if is_word(name, b"BRA") {
        Some(Ending::Branch)
    } else if is_word(name, b"ESC") {
        Some(Ending::Escape)
    } else if is_word(name, b"FAIL") {
        Some(Ending::Fail)
    } else if is_word(name, b"END") {
        Some(shown(word))
    } else {
        None
    }
}

/// What the end of a line shows.
fn shown(word: &[Ch]) -> Ending
    ensures { result ≡ shown word.now }
{
    if is_word(word, b"SHOW") {
        Ending::Shown
    } else if is_word(word, b"HIDE") {
        Ending::Hidden
    } else {
        Ending::Nothing
    }
}

/// The action of this name, if it has no function and no variable.
fn plain_named(name: &[Ch], word: &[Ch]) -> Option<Action>
    ensures { result ≡ plain_named name.now word.now }
{
    if is_word(name, b"BOX") {
        Some(Action::Box)
    } else if is_word(name, b"IDX") {
        Some(Action::Phrase(Row::Select))
    } else if is_word(name, b"GRP") {
        Some(Action::Phrase(Row::Group))
    } else if is_word(name, b"SHOW") {
        Some(Action::Phrase(Row::Show))
    } else {
        ending_named(name, word).map(Action::End)
    }
}

/// The row of a function, or the one with an axis where this word says so.
fn along(word: &[Ch], plain: Row, axis: Row) -> Row
    ensures { result ≡ along word.now plain axis }
{
    if is_word(word, b"K") { axis } else { plain }
}

/// The row of a function behind this name, and of the two words behind the function.
fn function_named(name: &[Ch], f: Function, second: &[Ch], third: &[Ch]) -> Option<Row>
    ensures { result ≡ function_named name.now f second.now third.now }
{
    if is_word(name, b"MON") {
        Some(along(second, Row::Monadic(f), Row::MonadicAxis(f)))
    } else if is_word(name, b"DYA") {
        Some(along(second, Row::Dyadic(f), Row::DyadicAxis(f)))
    } else if is_word(name, b"OUT") {
        Some(Row::Outer(f))
    } else if is_word(name, b"INN") {
        Some(Row::Inner(f, function_of(second)?))
    } else {
        let m = operator_of(second);
        Some(along(third, Row::Reduce(f, m), Row::ReduceAxis(f, m)))
    }
}

/// The row of this name, and of the three words behind it.
fn row_named(name: &[Ch], first: &[Ch], second: &[Ch], third: &[Ch]) -> Option<Row>
    ensures { result ≡ row_named name.now first.now second.now third.now }
{
    if is_word(name, b"VAR") {
        variable_of(first).map(Row::Read)
    } else if is_word(name, b"NIL") {
        variable_of(first).map(Row::Call)
    } else if is_word(name, b"SET") {
        variable_of(first).map(Row::Assign)
    } else if is_word(name, b"SETX") {
        variable_of(first).map(Row::AssignIndexed)
    } else {
        function_named(name, function_of(first)?, second, third)
    }
}

/// The action of this name, and of the three words behind it.
fn action_of(name: &[Ch], first: &[Ch], second: &[Ch], third: &[Ch]) -> Option<Action>
    ensures { result ≡ action_of name.now first.now second.now third.now }
{
    if let Some(action) = plain_named(name, first) {
        return Some(action);
    }
    Some(Action::Phrase(row_named(name, first, second, third)?))
}

/// The action whose words a text begins with, if it begins with those of one.
fn action_at(text: &[Ch]) -> Option<Action>
    ensures { result ≡ action_at text.now }
{
    let (name, rest) = split(text, ' ');
    let (first, rest) = split(rest, ' ');
    let (second, rest) = split(rest, ' ');
    let (third, _) = split(rest, ' ');
    action_of(name, first, second, third)
}

fn sources_of(alloc: Global, mut text: &[Ch]) -> Result<Vec<Option<Source>>, AllocError>
    ensures { IfOk result (λ v. v.items ≡ map source_of (words text.entry.now)) }
{
    let mut sources = Vec::new(alloc);
    while text.len() > 0 {
        let (word, rest) = split(text, ' ');
        sources.push(source_of(word))?;
        text = rest;
    }
    Ok(sources)
}

/// The operands of an action, with the index list that isn't written.
fn refilled(
    action: Action,
    mut sources: Vec<Option<Source>>,
) -> Result<Option<Arguments>, AllocError>
    ensures { IfOk result (λ o. o ≡ refilled (action_list action) sources.items) }
{
    let Some(place) = index_list(action) else {
        return Ok(Some(Arguments::new(sources)));
    };
    if place > sources.len() {
        return Ok(None);
    }
    sources.insert(place, Some(Source::Stack))?;
    Ok(Some(Arguments::new(sources)))
}

/// How long the words of an action are, with a blank behind each.
fn words_len(alloc: Global, action: Action) -> Result<usize, AllocError>
    ensures { IfOk result (λ n. n ≡ length (fields (action_words action) [])) }
{
    let mut words = Vec::new(alloc);
    push_action(&mut words, action)?;
    Ok(words.len())
}

/// The instruction that a line says, without its number and its end.
pub(crate) fn instr_at(alloc: Global, text: &[Ch]) -> Result<Option<Instr>, AllocError>
    ensures { IfOk result (λ o. o ≡ instr_at text.now) }
{
    let (prefix, place) = split(text, '@');
    let Some(action) = action_at(prefix) else {
        return Ok(None);
    };
    let read = words_len(alloc, action)?.min(prefix.len());
    let sources = sources_of(alloc, &prefix[read..])?;
    let Some(arguments) = refilled(action, sources)? else {
        return Ok(None);
    };
    Ok(Some(Instr {
        action,
        arguments,
        at: number_of(place),
    }))
}
