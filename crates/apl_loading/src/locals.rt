//! Locals of a standing call.
ghost use Rattle.std.specs.Prelude.{◌≡◌, ◌≢◌, ◌↔◌, ◌⊎◌, ◌++◌, IsTrue, IfOk, IfErr, OnOk, [], ◌∷◌, pos, length, map};
ghost use Rattle.std.specs.List.{AllByRecursion};
ghost use Rattle.apl_arrays.specs.Cells.{Numbers};
ghost use Rattle.apl_arrays.specs.Left.{listed};
ghost use Rattle.apl_charset.specs.Text.{IsLine};
ghost use Rattle.apl_machine_state.specs.Environment.{scalar};
ghost use Rattle.apl_order.specs.Kept.{given_name, names_in};
ghost use Rattle.apl_saved.specs.Rules.{IsLocal};
ghost use Rattle.apl_saved.specs.Spelled.{Pairwise};
ghost use Rattle.apl_loading.specs.inside.Made.{AreLocals, IsNamedBy};
ghost use Rattle.apl_loading.specs.Numbers.{Refuses};
ghost use Rattle.apl_loading.specs.declared.error.LoadFault.TheVariants as fault;

use crate::error::LoadFault;
use crate::names::is_named;
use apl_arrays::{Array, Elements};
use apl_defn::Header;
use apl_phrases::origin_name;
use apl_symbols::Name;
use apl_workspace_file::LocalField;
use std::alloc::{AllocError, Global};

/// Adds a name, where there is one.
fn push_named(names: &mut Vec<Name>, name: Option<Name>) -> Result<(), AllocError>
    ensures { OnOk result (names.new.items ≡ names.old.items ++ given_name name) }
{
    if let Some(name) = name {
        names.push(name)?;
    }
    Ok(())
}

/// The names of a header that have values: the result, the arguments, the locals.
fn names_in(alloc: Global, header: &Header) -> Result<Vec<Name>, AllocError>
    ensures { IfOk result (λ v. v.items ≡ names_in header.now) }
{
    let mut names = Vec::new(alloc);
    push_named(&mut names, header.result)?;
    push_named(&mut names, header.left)?;
    push_named(&mut names, header.right)?;
    names.extend_from_slice(header.locals.as_slice())?;
    Ok(names)
}

/// Whether these are the names of the fields.
fn are_named(alloc: Global, fields: &[LocalField], names: &[Name]) -> Result<bool, LoadFault>
    ensures same { IfOk result (λ b. IsTrue b ↔ Pairwise IsNamedBy fields.now names.now) }
    ensures memory { IfErr result (λ e. e ≡ fault.Memory) }
{
    if fields.len() != names.len() {
        return Ok(false);
    }
    for i in 0..fields.len() {
        if !is_named(alloc, &fields[i].name, &names[i])? {
            return Ok(false);
        }
    }
    Ok(true)
}

/// Names with their values, as many.
fn paired(
    alloc: Global,
    names: &[Name],
    values: Vec<Option<Array>>,
) -> Result<Vec<(Name, Option<Array>)>, AllocError>
    requires { length names.now ≡ length values.items }
    ensures names { IfOk result (λ v. map (λ l. l.0) v.items ≡ names.now) }
    ensures values { IfOk result (λ v. map (λ l. l.1) v.items ≡ values.items) }
{
    let mut pairs = Vec::with_capacity(alloc, names.len())?;
    for value in values {
        let name = names[pairs.len()];
        pairs.push((name, value))?;
    }
    Ok(pairs)
}

/// Whether the elements are 0 or 1 alone.
fn is_bit(items: Elements<'_>) -> bool
    ensures { IsTrue result ↔ ((listed items.entry ≡ Numbers (pos 0 ∷ [])) ⊎ (listed items.entry ≡ Numbers (pos 1 ∷ []))) }
{
    match items {
        Elements::Nums(numbers) => matches!(numbers.only(), Some(0 | 1)),
        Elements::Chars(_) => false,
    }
}

/// Whether an array is the scalar 0 or 1.
fn is_origin(array: &Array) -> bool
    ensures { IsTrue result ↔ ((array.now ≡ scalar 0) ⊎ (array.now ≡ scalar 1)) }
{
    array.shape().is_empty() && is_bit(array.items())
}

/// Whether a name may have that value, or none: only `⎕IO` may not have any.
fn is_local(local: &(Name, Option<Array>)) -> bool
    ensures { IsTrue result ↔ IsLocal local.now }
{
    if local.0 != origin_name() {
        return true;
    }
    match &local.1 {
        Some(array) => is_origin(array),
        None => false,
    }
}

/// Whether each name may have its value.
fn are_locals(locals: &[(Name, Option<Array>)]) -> bool
    ensures { IsTrue result ↔ AllByRecursion IsLocal locals.now }
{
    for local in locals {
        if !is_local(local) {
            return false;
        }
    }
    true
}

/// The locals of a header, with these values, one for each field.
pub(crate) fn read_locals(
    alloc: Global,
    header: &Header,
    fields: &[LocalField],
    values: Vec<Option<Array>>,
) -> Result<Vec<(Name, Option<Array>)>, LoadFault>
    requires { length fields.now ≡ length values.items }
    ensures found { IfOk result (λ v. AreLocals header.now fields.now values.items v.items) }
    ensures refused { IfErr result (Refuses fault.Context (λ ls. AreLocals header.now fields.now values.items ls)) }
{
    let names = names_in(alloc, header)?;
    if !are_named(alloc, fields, names.as_slice())? {
        return Err(LoadFault::Context);
    }
    let locals = paired(alloc, names.as_slice(), values)?;
    if !are_locals(locals.as_slice()) {
        return Err(LoadFault::Context);
    }
    Ok(locals)
}
