//! The names of a function's own.
ghost use Rattle.std.specs.Prelude.{◌≡◌, IfOk, List, OnOk, option_copied};
ghost use Rattle.std.specs.List.{list_any};
ghost use Rattle.std.specs.Str.{bytes_eq};
ghost use Rattle.apl_names.specs.Bound.{Hold};
ghost use Rattle.apl_names.specs.Maps.{Map, class_in, found};
ghost use Rattle.apl_names.specs.Owned.{Owns, Suffice, is_given, is_own, takes_part};

use crate::bound::Asked;
use apl_defn::{Definition, Header};
use apl_symbols::{Class, Name};
use std::alloc::{AllocError, Global};

/// Whether there is a name, and it is that one.
fn is_given(given: Option<&Name>, name: &Name) -> bool
    ensures { result ≡ is_given (option_copied given.entry) name.now }
{
    match given {
        Some(own) => *own == *name,
        None => false,
    }
}

/// Whether a name is the result or an argument.
fn takes_part(header: &Header, name: &Name) -> bool
    ensures { result ≡ takes_part header.now name.now }
{
    is_given(header.result.as_ref(), name)
        || is_given(header.left.as_ref(), name)
        || is_given(header.right.as_ref(), name)
}

/// Whether a name is one of these labels.
fn is_label(labels: &[(Name, usize)], name: &Name) -> bool
    ensures { result ≡ list_any (λ l. bytes_eq l.0 name.now) labels.now }
{
    labels.iter().any(|label| label.0 == *name)
}

/// Whether a name is one of a function's own: its result, an argument, a local or a label. In its calls these stand for values, labels or
/// nothing yet.
fn is_own(definition: &Definition, name: &Name) -> bool
    ensures { result ≡ is_own definition.now name.now }
{
    let header = definition.header();
    takes_part(header, name)
        || header.locals.as_slice().contains(name)
        || is_label(definition.labels(), name)
}

/// Of the names on which a line hangs, those that aren't a function's own.
pub(crate) fn others_among(
    alloc: Global,
    asked: &[Asked],
    definition: &Definition,
) -> Result<Vec<Asked>, AllocError>
    ensures { IfOk result (λ others. Suffice definition.now others.items asked.now) }
{
    let mut others = Vec::new(alloc);
    for one in asked {
        ask_unless_own(&mut others, one, definition)?;
    }
    Ok(others)
}

/// A name is among these from now on, unless it is a function's own and stood for no function.
fn ask_unless_own(
    others: &mut Vec<Asked>,
    one: &Asked,
    definition: &Definition,
) -> Result<(), AllocError>
    ensures more { (maps : List Map) → Hold maps others.new.items → Hold maps others.old.items }
    ensures asks { OnOk result ((maps : List Map) → Owns maps definition.now → Hold maps others.new.items → class_in (found maps one.now.name) ≡ one.now.class) }
{
    if one.class == Class::Variable && is_own(definition, &one.name) {
        return Ok(());
    }
    others.push(*one)?;
    Ok(())
}
