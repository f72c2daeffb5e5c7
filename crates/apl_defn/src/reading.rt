// The header of a text.
ghost use Rattle.std.specs.Prelude.{◌≡◌, ◌++◌, map, Some, None, IfOk, IfErr, OnOk, MatchOption, option_map, length};
ghost use Rattle.std.specs.List.{list_any};
ghost use Rattle.std.specs.Option.{option_to_list, option_copied};
ghost use Rattle.std.specs.Str.{bytes_eq};
ghost use Rattle.apl_defn.specs.declared.error.DefnError.TheVariants.{Memory};
ghost use Rattle.apl_defn.specs.Headers.{kinds, origin, names_of};
ghost use Rattle.apl_defn.specs.Reading.{name_in, local_in, is_arrow, is_semicolon, split_result, after_one, after_two, form_at, locals_of, head_in, head_of, header_of, are_distinct, Answers};

use crate::error::DefnError;
use crate::parts::{Form, Header, Names};
use apl_charset::Ch;
use apl_symbols::{Name, Symbol, SystemName};
use apl_tokens::{Kind, Token, TokenError, tokens};
use std::alloc::{AllocError, Global};

pub(crate) fn name_in(kind: &Kind) -> Option<Name>
    ensures { result ≡ name_in kind.now }
{
    match kind {
        Kind::Name(name) => Some(*name),
        _ => None,
    }
}

/// `⎕IO` as a name.
#[tactic(auto, unfolding(apl_charset::specs::Set::is_member))]
fn origin() -> Option<Name>
    ensures { result ≡ Some origin }
{
    let word = [Ch::member('⎕'), Ch::ascii(b'I'), Ch::ascii(b'O')];
    Name::new(&word)
}

fn local_in(kind: &Kind) -> Option<Name>
    ensures { result ≡ local_in kind.now }
{
    match kind {
        Kind::Name(name) => Some(*name),
        Kind::System(SystemName::Origin) => origin(),
        _ => None,
    }
}

fn is_arrow(kind: &Kind) -> bool
    ensures { result ≡ is_arrow kind.now }
{
    matches!(kind, Kind::Symbol(Symbol::LeftArrow))
}

fn is_semicolon(kind: &Kind) -> bool
    ensures { result ≡ is_semicolon kind.now }
{
    matches!(kind, Kind::Symbol(Symbol::Semicolon))
}

/// The result, if there is one, and the tokens behind its arrow.
#[tactic(auto, unfolding(crate::specs::Reading::split_result))]
fn split_result(tokens: &[Token]) -> (Option<Name>, &[Token])
    ensures name { result.0 ≡ (split_result (kinds tokens.now)).0 }
    ensures behind { kinds result.1.now ≡ (split_result (kinds tokens.now)).1 }
{
    let [first, second, rest @ ..] = tokens else {
        return (None, tokens);
    };
    if !is_arrow(&second.kind) {
        return (None, tokens);
    }
    match name_in(&first.kind) {
        Some(name) => return (Some(name), rest),
        None => return (None, tokens),
    }
}

/// The function with its arguments where two names stand before the tokens.
fn after_two<'a>(first: &Name, second: &Name, tokens: &'a [Token]) -> (Form, &'a [Token])
    ensures form { result.0 ≡ (after_two first.now second.now (kinds tokens.now)).0 }
    ensures behind { kinds result.1.now ≡ (after_two first.now second.now (kinds tokens.now)).1 }
{
    let monadic = Form {
        left: None,
        name: *first,
        right: Some(*second),
    };
    let [token, rest @ ..] = tokens else {
        return (monadic, tokens);
    };
    match name_in(&token.kind) {
        None => return (monadic, tokens),
        Some(third) => {
            let dyadic = Form {
                left: Some(*first),
                name: *second,
                right: Some(third),
            };
            return (dyadic, rest);
        }
    }
}

/// The same where one name stands before them.
fn after_one<'a>(first: &Name, tokens: &'a [Token]) -> (Form, &'a [Token])
    ensures form { result.0 ≡ (after_one first.now (kinds tokens.now)).0 }
    ensures behind { kinds result.1.now ≡ (after_one first.now (kinds tokens.now)).1 }
{
    let niladic = Form {
        left: None,
        name: *first,
        right: None,
    };
    let [token, rest @ ..] = tokens else {
        return (niladic, tokens);
    };
    match name_in(&token.kind) {
        None => return (niladic, tokens),
        Some(second) => return after_two(first, &second, rest),
    }
}

/// The leading names, three at most, and the tokens behind them.
#[tactic(auto, unfolding(crate::specs::Reading::form_at))]
fn form_at(tokens: &[Token]) -> Option<(Form, &[Token])>
    ensures { MatchOption result (form_at (kinds tokens.now) ≡ None) (λ f. form_at (kinds tokens.now) ≡ Some (f.0, kinds f.1.now)) }
{
    let [token, rest @ ..] = tokens else {
        return None;
    };
    let Some(name) = name_in(&token.kind) else {
        return None;
    };
    let (form, behind) = after_one(&name, rest);
    Some((form, behind))
}

/// The locals, where the tokens are locals and nothing else.
fn locals_at(alloc: Global, tokens: &[Token]) -> Result<Option<Names>, AllocError>
    ensures { IfOk result (λ o. o ≡ locals_of (kinds tokens.now)) }
{
    let mut out = Vec::new(alloc);
    let mut rest = tokens;
    while let [first, second, behind @ ..] = rest {
        if !is_semicolon(&first.kind) {
            return Ok(None);
        }
        let Some(local) = local_in(&second.kind) else {
            return Ok(None);
        };
        out.push(local)?;
        rest = behind;
    }
    if rest.is_empty() {
        return Ok(Some(Names::new(out)));
    }
    Ok(None)
}

/// The header that the tokens write.
#[tactic(auto, unfolding(crate::specs::Reading::head_in))]
fn head_in(alloc: Global, tokens: &[Token]) -> Result<Option<Header>, AllocError>
    ensures { IfOk result (λ o. o ≡ head_in (kinds tokens.now)) }
{
    let (result_name, rest) = split_result(tokens);
    let Some((form, rest)) = form_at(rest) else {
        return Ok(None);
    };
    let Some(locals) = locals_at(alloc, rest)? else {
        return Ok(None);
    };
    Ok(Some(Header {
        result: result_name,
        left: form.left,
        name: form.name,
        right: form.right,
        locals,
    }))
}

/// The header that the text is, where names may stand twice.
#[tactic(auto, unfolding(crate::specs::Reading::head_of))]
pub(crate) fn head_of(alloc: Global, text: &[Ch]) -> Result<Option<Header>, AllocError>
    ensures { IfOk result (λ o. o ≡ head_of text.now) }
{
    match tokens(alloc, text) {
        Ok(tokens) => {
            let head = head_in(alloc, &tokens)?;
            return Ok(head);
        }
        Err(TokenError::Memory) => return Err(AllocError),
        Err(_) => return Ok(None),
    }
}

fn is_among(names: &[Name], name: &Name) -> bool
    ensures { result ≡ list_any (λ other. bytes_eq other name.now) names.now }
{
    names
        .iter()
        .any(|other| other.as_slice() == name.as_slice())
}

/// Whether no name stands twice.
pub(crate) fn are_distinct(names: &[Name]) -> bool
    ensures { result ≡ are_distinct names.now }
{
    let mut rest = names;
    while let [first, others @ ..] = rest {
        if is_among(others, first) {
            return false;
        }
        rest = others;
    }
    true
}

fn push_option(names: &mut Vec<Name>, name: Option<&Name>) -> Result<(), AllocError>
    ensures { OnOk result (names.new.items ≡ names.old.items ++ option_to_list (option_copied name.entry)) }
{
    if let Some(name) = name {
        names.push(*name)?;
    }
    Ok(())
}

/// All names of a header.
pub(crate) fn names_of(alloc: Global, header: &Header) -> Result<Vec<Name>, AllocError>
    ensures { IfOk result (λ v. v.items ≡ names_of header.now) }
{
    let mut names = Vec::new(alloc);
    push_option(&mut names, header.result.as_ref())?;
    push_option(&mut names, header.left.as_ref())?;
    names.push(header.name)?;
    push_option(&mut names, header.right.as_ref())?;
    names.extend_from_slice(header.locals.as_slice())?;
    Ok(names)
}

/// The header that a text is. Errors: Header where it is none, as where it has a fault of tokens, a
/// comment or more than 500 characters; Twice where one of its names stands twice; Memory.
#[tactic(auto, unfolding(crate::specs::Reading::header_of))]
pub fn header(alloc: Global, text: &[Ch]) -> Result<Header, DefnError>
    // It is the one answer for the text.
    ensures { Answers result (header_of text.now) }
{
    let Some(header) = head_of(alloc, text)? else {
        return Err(DefnError::Header);
    };
    let names = names_of(alloc, &header)?;
    if !are_distinct(&names) {
        return Err(DefnError::Twice);
    }
    Ok(header)
}
