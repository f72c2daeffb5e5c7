//! Lines, their tokens and their classes.
ghost use Rattle.std.specs.Prelude.{◌≡◌, ◌≢◌, List, false, length, count_by, IfOk, IfErr, Ok};
ghost use Rattle.apl_defn.specs.Definitions.{Text as Line};
ghost use Rattle.apl_tokens.specs.declared.token.Token.{Token as AToken};
ghost use Rattle.apl_tokens.specs.Tokens.{tokens_of};
ghost use Rattle.apl_translate.specs.Binding.{bound_of, names_of};
ghost use Rattle.apl_translate.specs.Translation.{Translates};
ghost use Rattle.apl_saved.specs.Spelled.{letter_of, letters_of};
ghost use Rattle.apl_loading.specs.inside.Made.{AreClasses, AreOfText, IsStatementLine, is_named};
ghost use Rattle.apl_loading.specs.Numbers.{Refuses};
ghost use Rattle.apl_loading.specs.declared.error.LoadFault.TheVariants as fault;

use crate::error::LoadFault;
use crate::field::{Field, read_all};
use crate::texts::read_text;
use apl_charset::{Ch, Text};
use apl_code::Code;
use apl_defn::label_in;
use apl_symbols::Class;
use apl_tokens::{Kind, Token, TokenError, tokens};
use apl_translate::{Cache, bind, without_label};
use apl_workspace_file::TextField;
use std::alloc::{AllocError, Global};
use std::rc::Rc;

// The letter of a class.
impl Field for u8 {
    type Part = Class;

    ghost small = { λ b. Unit {0} };

    ghost stands_for = { λ b class. b ≡ letter_of class };

    ghost fault = { fault.Context };

    fn is_small(&self) -> bool {
        true
    }

    fn read(&self, _alloc: Global) -> Result<Class, LoadFault> {
        match *self {
            b'V' => Ok(Class::Variable),
            b'N' => Ok(Class::Niladic),
            b'F' => Ok(Class::Function),
            _ => Err(LoadFault::Context),
        }
    }
}

/// The classes that letters stand for.
fn read_letters(alloc: Global, field: &TextField) -> Result<Vec<Class>, LoadFault>
    ensures found { IfOk result (λ v. field.now ≡ letters_of v.items) }
    ensures refused { IfErr result (Refuses fault.Context (λ classes. field.now ≡ letters_of classes)) }
{
    read_all(alloc, field.as_str().as_bytes())
}

/// The tokens of a text.
fn read_tokens(alloc: Global, text: &[Ch]) -> Result<Vec<Token>, LoadFault>
    ensures found { IfOk result (λ v. tokens_of text.now ≡ Ok v.items) }
    ensures refused { IfErr result (Refuses fault.Context (λ ts. tokens_of text.now ≡ Ok ts)) }
{
    match tokens(alloc, text) {
        Ok(tokens) => Ok(tokens),
        Err(TokenError::Memory) => Err(LoadFault::Memory),
        Err(_) => Err(LoadFault::Context),
    }
}

/// How many tokens are names.
fn names_among(tokens: &[Token]) -> usize
    ensures { result ≡ count_by is_named tokens.now }
{
    tokens
        .iter()
        .filter(|token| matches!(token.kind, Kind::Name(_)))
        .count()
}

/// How many user names stand among the items of a line.
fn count_names(tokens: &[Token]) -> usize
    ensures { result ≡ length (names_of tokens.now) }
{
    names_among(without_label(tokens))
}

/// The classes that letters stand for, as many as the user names of these tokens.
pub(crate) fn read_classes(
    alloc: Global,
    tokens: &[Token],
    field: &TextField,
) -> Result<Vec<Class>, LoadFault>
    ensures found { IfOk result (λ v. AreClasses tokens.now field.now v.items) }
    ensures refused { IfErr result (Refuses fault.Context (λ classes. AreClasses tokens.now field.now classes)) }
{
    let classes = read_letters(alloc, field)?;
    if classes.len() == count_names(tokens) {
        Ok(classes)
    } else {
        Err(LoadFault::Context)
    }
}

/// The code of the line of these tokens, a text's, whose names have these classes: found in the cache,
/// or made now and cached.
pub(crate) fn code_of(
    alloc: Global,
    tokens: &[Token],
    classes: &[Class],
    cache: &mut Cache,
) -> Result<Rc<Code>, AllocError>
    requires { AreOfText tokens.now }
    ensures { IfOk result (λ code. Translates code.value false (bound_of tokens.now classes.now).items) }
{
    let bound = bind(alloc, tokens, classes)?;
    let line = cache.translate(&bound)?;
    Ok(line.code)
}

/// A statement, or a text that is executed, with its tokens.
#[derive(Drop)]
pub(crate) struct StatementLine {
    pub(crate) text: Text,
    pub(crate) tokens: Vec<Token>,
}

/// The statement, or the text that is executed, that a field is.
pub(crate) fn read_statement_line(
    alloc: Global,
    field: &TextField,
) -> Result<StatementLine, LoadFault>
    ensures found { IfOk result (λ l. IsStatementLine field.now l.text l.tokens.items) }
    ensures refused { IfErr result (λ e. e ≢ fault.Memory → (e ≡ fault.Context) × ((text : Line) (ts : List AToken) → ¬ IsStatementLine field.now text ts)) }
{
    let text = read_text(alloc, field, LoadFault::Context)?;
    let tokens = read_tokens(alloc, text.as_slice())?;
    if label_in(tokens.as_slice()).is_some() {
        return Err(LoadFault::Context);
    }
    Ok(StatementLine { text, tokens })
}
