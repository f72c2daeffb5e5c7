//! The listings of a function's lines.
ghost use Rattle.std.specs.Prelude.{◌≡◌, ◌≤◌, ℕ, List, Ok, length, map, option_map, IfOk};
ghost use Rattle.std.specs.List.{AllZip};
ghost use Rattle.apl_tokens.specs.Tokens.{tokens_of};
ghost use Rattle.apl_defn.specs.Definitions.{line_of};
ghost use Rattle.apl_listed.specs.Listings.{AreListings, IsListing, Lists, bound_now, function_named};

use crate::binding::bound_now;
use apl_charset::Ch;
use apl_defn::Definition;
use apl_listing::listing;
use apl_machine::Machine;
use apl_symbols::Name;
use apl_tokens::Token;
use apl_translate::translate;
use std::alloc::{AllocError, Global};

/// The listing of the line of these tokens, a text's, as it would begin now.
fn line_listing(alloc: Global, machine: &Machine, tokens: &[Token]) -> Result<Vec<u8>, AllocError>
    requires { (text : List ℕ) × (tokens_of text ≡ Ok tokens.now) }
    ensures { IfOk result (λ bytes. IsListing (bound_now machine.now tokens.now) bytes.items) }
{
    let bound = bound_now(alloc, machine, tokens)?;
    let code = translate(alloc, &bound)?;
    let bytes = listing(alloc, &code)?;
    Ok(bytes)
}

/// The tokens of the line of that number, from 1.
fn tokens_at(
    alloc: Global,
    definition: &Definition,
    number: usize,
) -> Result<Vec<Token>, AllocError>
    requires { (1 ≤ number) × (number ≤ length definition.now.lines) }
    ensures { IfOk result (λ tokens. tokens_of (line_of definition.now number) ≡ Ok tokens.items) }
{
    let Some(tokens) = definition.tokens(alloc, number)? else {
        unreachable!()
    };
    Ok(tokens)
}

/// The listing of each line of a function, in their order.
fn listings(
    alloc: Global,
    machine: &Machine,
    definition: &Definition,
) -> Result<Vec<Vec<u8>>, AllocError>
    ensures { IfOk result (λ found. AllZip (Lists machine.now) definition.now.lines (map (λ bytes. bytes.items) found.items)) }
{
    let mut found = Vec::with_capacity(alloc, definition.len())?;
    for i in 0..definition.len() {
        let tokens = tokens_at(alloc, definition, i + 1)?;
        found.push(line_listing(alloc, machine, tokens.as_slice())?)?;
    }
    Ok(found)
}

/// The listing of each line of the global function of this name, in UTF-8: its code, where each name
/// of the line has the class that it has now, as the newest of the standing calls says that has the
/// name, and else the workspace. The names of its own header and its labels are no exception, since
/// no call of it begins. There is none where the text is not the name of a global function. The error
/// is that memory has run out.
pub fn code_of(
    alloc: Global,
    machine: &Machine,
    name: &[Ch],
) -> Result<Option<Vec<Vec<u8>>>, AllocError>
    ensures { IfOk result (λ found. AreListings machine.now (function_named machine.now name.now)
        (option_map (λ listings. map (λ bytes. bytes.items) listings.items) found)) }
{
    let Some(name) = Name::new(name) else {
        return Ok(None);
    };
    let Some(definition) = machine.definition(&name) else {
        return Ok(None);
    };
    let found = listings(alloc, machine, definition)?;
    Ok(Some(found))
}
