//! The binding of a line's tokens to its items.
ghost use Rattle.std.specs.Prelude.{◌≡◌, ◌≤◌, ◌<◌, ◌++◌, All, Some, ◌+◌, length, vec_len, vec_capacity, IfOk, OnOk};
ghost use Rattle.std.specs.List.{flat_map};
ghost use Rattle.apl_symbols.specs.Primitives.{operator_of};
ghost use Rattle.apl_translate.specs.Binding.{without_label, nothing_left, class_at, name_word, system_word, primitive_word, closing};
ghost use Rattle.apl_translate.specs.Binding.{symbol_word, word_of, form_of, neighbour_of, placed, takes_axis, axes_after};
ghost use Rattle.apl_translate.specs.Binding.{with_item, items_from, constant_in, bound_of, elements_in, HasName};

use crate::form::{Bound, Form, Placed, Word};
use apl_arrays::{Array, NumberSlice, Ravel};
use apl_code::{Function, Variable};
use apl_symbols::{Class, Name, Primitive, Symbol, SystemName};
use apl_tokens::{Kind, Token};
use std::alloc::{AllocError, Global};
use std::marker::Model;

/// The item before the next one.
#[derive(Clone, Copy, PartialEq, Eq, Debug)]
enum Neighbour {
    Function,
    Operator,
    /// Another item, or none.
    Other,
}

impl Neighbour {
    fn of(word: &Word) -> Neighbour
        ensures { result ≡ neighbour_of (Form.Word word.now) }
    {
        match word {
            Word::Function(_) => Neighbour::Function,
            Word::Operator(_) => Neighbour::Operator,
            _ => Neighbour::Other,
        }
    }

    fn takes_axis(self) -> bool
        ensures { result ≡ takes_axis self }
    {
        self != Neighbour::Other
    }
}

/// Binds one token after another, from the left.
#[derive(Drop)]
struct Binder {
    neighbour: Neighbour,
    /// For each `[` that is open, the innermost last: whether a function or an operator stands
    /// before it.
    axes: Vec<bool>,
    constants: usize,
    names: usize,
}

impl Model for Binder {
    ghost use Rattle.std.specs.Prelude.{reverse};
    ghost use Rattle.apl_translate.specs.Binding.{Left};

    ghost Value = { Left };

    ghost view = { λ b. record { neighbour = b.neighbour; axes = reverse b.axes.items; constants = b.constants; names = b.names } };
}

impl Binder {
    fn new(alloc: Global) -> Binder
        ensures { result ≡ nothing_left }
    {
        Binder {
            neighbour: Neighbour::Other,
            axes: Vec::new(alloc),
            constants: 0,
            names: 0,
        }
    }

    /// Whether the innermost bracket that is open begins an axis.
    fn closing(&self) -> Word
        ensures { result ≡ closing self.now.axes }
    {
        match self.axes.last() {
            Some(true) => Word::CloseAxis,
            _ => Word::CloseBracket,
        }
    }

    fn symbol_word(&self, symbol: Symbol) -> Option<Word>
        ensures { result ≡ symbol_word self.now symbol }
    {
        match symbol {
            Symbol::Primitive(f) => Some(primitive_word(self.neighbour, f)),
            Symbol::Dot => Some(Word::Dot),
            Symbol::Jot => Some(Word::Jot),
            Symbol::LeftArrow => Some(Word::LeftArrow),
            Symbol::RightArrow => Some(Word::RightArrow),
            Symbol::OpenParenthesis => Some(Word::OpenParenthesis),
            Symbol::CloseParenthesis => Some(Word::CloseParenthesis),
            Symbol::OpenBracket => Some(Word::OpenBracket),
            Symbol::CloseBracket => Some(self.closing()),
            Symbol::Semicolon => Some(Word::Semicolon),
            Symbol::Quad => Some(Word::Quad),
            Symbol::Colon => None,
        }
    }

    /// The word of a name, a system name or a symbol.
    fn word_of(&self, classes: &[Class], kind: &Kind) -> Option<Word>
        ensures { result ≡ word_of classes.now self.now kind.now }
    {
        match kind {
            Kind::Name(name) => Some(name_word(class_at(classes, self.names), *name)),
            Kind::System(name) => Some(system_word(*name)),
            Kind::Symbol(symbol) => self.symbol_word(*symbol),
            Kind::Constant(_) | Kind::Text(_) | Kind::Comment(_) => None,
        }
    }

    /// Goes past a word.
    fn pass(&mut self, kind: &Kind, word: &Word) -> Result<(), AllocError>
        requires { self.old.names < 1000 }
        ensures { OnOk result (self.new ≡ with_item self.old kind.now (Some (Form.Word word.now))) }
    {
        match word {
            Word::OpenBracket => self.axes.push(self.neighbour.takes_axis())?,
            Word::CloseBracket | Word::CloseAxis => {
                self.axes.pop();
            }
            _ => {}
        }
        if let Kind::Name(_) = kind {
            self.names += 1;
        }
        self.neighbour = Neighbour::of(word);
        Ok(())
    }

    /// Binds a token: its item, if it is one, goes to the end of the items, which have room.
    fn bind(
        &mut self,
        classes: &[Class],
        token: &Token,
        items: &mut Vec<Placed>,
    ) -> Result<(), AllocError>
        requires few { (self.old.constants < 1000) × (self.old.names < 1000) }
        requires room { vec_len items.old < vec_capacity items.old }
        ensures item { OnOk result (items.new.items ≡ items.old.items ++ placed (form_of classes.now self.old token.now.kind) token.now.at) }
        ensures left { OnOk result (self.new ≡ with_item self.old token.now.kind (form_of classes.now self.old token.now.kind)) }
        ensures room { OnOk result ((vec_capacity items.new ≡ vec_capacity items.old) × (vec_len items.new ≤ vec_len items.old + 1)) }
    {
        match &token.kind {
            Kind::Constant(_) | Kind::Text(_) => {
                items.push_reserved(Placed {
                    form: Form::Constant(self.constants),
                    at: token.at,
                });
                self.constants += 1;
                self.neighbour = Neighbour::Other;
                Ok(())
            }
            kind => {
                let Some(word) = self.word_of(classes, kind) else {
                    return Ok(());
                };
                self.pass(kind, &word)?;
                items.push_reserved(Placed {
                    form: Form::Word(word),
                    at: token.at,
                });
                Ok(())
            }
        }
    }

    /// Binds tokens: their items go to the end of the items, which have room for them.
    fn bind_all(
        &mut self,
        classes: &[Class],
        tokens: &[Token],
        items: &mut Vec<Placed>,
    ) -> Result<(), AllocError>
        requires few { (self.old.constants + length tokens.now ≤ 500) × (self.old.names + length tokens.now ≤ 500) }
        requires room { vec_len items.old + length tokens.now ≤ vec_capacity items.old }
        ensures { OnOk result (items.new.items ≡ items.old.items ++ items_from classes.now self.old tokens.now) }
    {
        for token in tokens {
            self.bind(classes, token, items)?;
        }
        Ok(())
    }
}

fn class_at(classes: &[Class], n: usize) -> Class
    ensures { result ≡ class_at classes.now n }
{
    match classes.get(n) {
        Some(class) => *class,
        None => Class::Variable,
    }
}

fn name_word(class: Class, name: Name) -> Word
    ensures { result ≡ name_word class name }
{
    match class {
        Class::Variable => Word::Variable(Variable::Name(name)),
        Class::Niladic => Word::Niladic(Variable::Name(name)),
        Class::Function => Word::Function(Function::Name(name)),
    }
}

fn system_word(name: SystemName) -> Word
    ensures { result ≡ system_word name }
{
    match name {
        SystemName::Origin => Word::Variable(Variable::System(name)),
        SystemName::LineCounter => Word::Niladic(Variable::System(name)),
        SystemName::NameClass | SystemName::Stop | SystemName::Trace => {
            Word::Function(Function::System(name))
        }
    }
}

fn primitive_word(neighbour: Neighbour, f: Primitive) -> Word
    ensures { result ≡ primitive_word neighbour f (operator_of f) }
{
    match (neighbour, f.operator()) {
        (Neighbour::Function, Some(operator)) => Word::Operator(operator),
        _ => Word::Function(Function::Primitive(f)),
    }
}

/// The tokens behind the label; all of them, where there is none.
pub fn without_label(tokens: &[Token]) -> &[Token]
    ensures { result.now ≡ without_label tokens.now }
{
    let [first, second, rest @ ..] = tokens else {
        return tokens;
    };
    if first.kind.is_name() && second.kind.is_colon() {
        rest
    } else {
        tokens
    }
}

/// The items of tokens.
fn items_of(alloc: Global, tokens: &[Token], classes: &[Class]) -> Result<Vec<Placed>, AllocError>
    requires { length tokens.now ≤ 500 }
    ensures { IfOk result (λ v. v.items ≡ items_from classes.now nothing_left tokens.now) }
{
    let mut items = Vec::with_capacity(alloc, tokens.len())?;
    let mut binder = Binder::new(alloc);
    binder.bind_all(classes, tokens, &mut items)?;
    Ok(items)
}

/// The arrays of the constants and texts.
fn constants_of(alloc: Global, tokens: &[Token]) -> Result<Vec<Array>, AllocError>
    requires { All (λ t. elements_in t.kind ≤ 1000000) tokens.now }
    ensures { IfOk result (λ v. v.items ≡ flat_map (λ t. constant_in t.kind) tokens.now) }
{
    let mut constants = Vec::new(alloc);
    for token in tokens {
        match &token.kind {
            Kind::Constant(numbers) => {
                let numbers = NumberSlice::I64(numbers.as_slice()).squeezed(alloc)?;
                constants.push(Array::from_ravel(alloc, Ravel::Nums(numbers))?)?;
            }
            Kind::Text(text) => {
                let characters = Vec::from_slice(alloc, text.as_slice())?;
                constants.push(Array::from_chars(alloc, characters)?)?;
            }
            _ => {}
        }
    }
    Ok(constants)
}

/// The bound line of tokens: its items, without a label and a comment, and its constants. `classes` has the class
/// of each user name among the items, in the order of the text.
pub fn bind(alloc: Global, tokens: &[Token], classes: &[Class]) -> Result<Bound, AllocError>
    requires few { length tokens.now ≤ 500 }
    requires placed { All (λ t. (1 ≤ t.at) × (t.at ≤ 500)) tokens.now }
    requires small { All (λ t. elements_in t.kind ≤ 1000000) tokens.now }
    requires named { All (λ t. HasName t.kind) tokens.now }
    ensures { IfOk result (λ b. b ≡ bound_of tokens.now classes.now) }
{
    let items = items_of(alloc, without_label(tokens), classes)?;
    let constants = constants_of(alloc, tokens)?;
    Ok(Bound::new(items, constants))
}
