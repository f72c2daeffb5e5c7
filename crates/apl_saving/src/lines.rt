//! Lines that await an answer.
ghost use Rattle.std.specs.Prelude.{◌≡◌, ℕ, List, IfOk, Ok};
ghost use Rattle.apl_listing.specs.Listing.{listed};
ghost use Rattle.apl_tokens.specs.Tokens.{tokens_of};
ghost use Rattle.apl_saved.specs.Spelled.{IsListingOf, IsRestOf, letter_of, letters_of};

use crate::saved::list_field;
use apl_code::Code;
use apl_listing::listing;
use apl_parts::RestPart;
use apl_symbols::Class;
use apl_tokens::Token;
use apl_translate::{bind, translate};
use apl_workspace_file::{RestField, TextField};
use std::alloc::{AllocError, Global};

/// The letter of a class.
fn letter_of(class: Class) -> char
    ensures { result ≡ letter_of class }
{
    match class {
        Class::Variable => 'V',
        Class::Niladic => 'N',
        Class::Function => 'F',
    }
}

/// A letter for each class.
fn classes_field(alloc: Global, classes: &[Class]) -> Result<TextField, AllocError>
    ensures { IfOk result (λ f. f ≡ letters_of classes.now) }
{
    let mut letters = String::new(alloc);
    for class in classes {
        letters.push(letter_of(*class))?;
    }
    Ok(TextField::new(letters))
}

/// The listing of a code.
fn listing_field(alloc: Global, code: &Code) -> Result<TextField, AllocError>
    ensures { IfOk result (λ f. f ≡ listed 0 code.now) }
{
    // Its length says that it is a code, whose listing is UTF-8.
    let _len = code.len();
    let Ok(text) = String::from_utf8(listing(alloc, code)?) else {
        unreachable!()
    };
    Ok(TextField::new(text))
}

/// The listing of the line of these tokens, whose names have these classes.
fn code_field(alloc: Global, tokens: &[Token], classes: &[Class]) -> Result<TextField, AllocError>
    requires { (text : List ℕ) × (tokens_of text ≡ Ok tokens.now) }
    ensures { IfOk result (λ f. (text : List ℕ) → tokens_of text ≡ Ok tokens.now → IsListingOf f text classes.now) }
{
    let bound = bind(alloc, tokens, classes)?;
    let code = translate(alloc, &bound)?;
    let listing = listing_field(alloc, &code)?;
    Ok(listing)
}

/// What is kept of the line of these tokens, a text's.
pub(crate) fn rest_field(
    alloc: Global,
    tokens: &[Token],
    rest: &RestPart,
) -> Result<RestField, AllocError>
    requires { (text : List ℕ) × (tokens_of text ≡ Ok tokens.now) }
    ensures { IfOk result (λ f. (text : List ℕ) → tokens_of text ≡ Ok tokens.now → IsRestOf f text rest.now) }
{
    let classes = classes_field(alloc, rest.classes())?;
    let code = code_field(alloc, tokens, rest.classes())?;
    let operands = list_field(alloc, rest.operands())?;
    Ok(RestField {
        classes,
        code,
        done: rest.done(),
        operands,
    })
}
