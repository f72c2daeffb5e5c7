//! Definitions.
ghost use Rattle.std.specs.Prelude.{◌≡◌, ◌↔◌, ◌∷◌, IsTrue, IfOk, IfErr, Ok, Some, slice_get};
ghost use Rattle.apl_charset.specs.Text.{IsLine};
ghost use Rattle.apl_defn.specs.Defining.{IsDefined, defined_of};
ghost use Rattle.apl_defn.specs.Listing.{canonical};
ghost use Rattle.apl_saved.specs.Spelled.{IsDefinitionOf, Pairwise};
ghost use Rattle.apl_loading.specs.Numbers.{Refuses};
ghost use Rattle.apl_loading.specs.declared.error.LoadFault.TheVariants as fault;

use crate::error::LoadFault;
use crate::field::read_all;
use crate::texts::{are_same, read_text};
use apl_charset::Text;
use apl_defn::{Definition, DefnError, canonical, define};
use apl_workspace_file::TextField;
use std::alloc::{AllocError, Global};

/// The texts of a header and of the lines behind it.
fn read_texts(
    alloc: Global,
    header: &TextField,
    lines: &[TextField],
) -> Result<Vec<Text>, LoadFault>
    ensures found { IfOk result (λ v. Pairwise IsLine (header.now ∷ lines.now) v.items) }
    ensures refused { IfErr result (Refuses fault.Definition (λ ts. Pairwise IsLine (header.now ∷ lines.now) ts)) }
{
    let header = read_text(alloc, header, LoadFault::Definition)?;
    let mut texts = read_all(alloc, lines)?;
    texts.insert(0, header)?;
    Ok(texts)
}

/// The function that these lines define, the header first.
fn defined(alloc: Global, texts: Vec<Text>) -> Result<Definition, LoadFault>
    ensures found { IfOk result (λ d. defined_of texts.items ≡ Ok d) }
    ensures refused { IfErr result (Refuses fault.Definition (λ d. defined_of texts.items ≡ Ok d)) }
{
    match define(alloc, texts) {
        Ok(definition) => Ok(definition),
        Err(DefnError::Memory) => Err(LoadFault::Memory),
        Err(_) => Err(LoadFault::Definition),
    }
}

/// The first of these texts again.
fn first_of(alloc: Global, texts: &[Text]) -> Result<Option<Text>, AllocError>
    ensures { IfOk result (λ first. first ≡ slice_get texts.now 0) }
{
    match texts.first() {
        Some(first) => Ok(Some(first.copy(alloc)?)),
        None => Ok(None),
    }
}

/// Whether the header of a definition is this text.
fn is_headed(
    alloc: Global,
    definition: &Definition,
    first: Option<Text>,
) -> Result<bool, AllocError>
    ensures { IfOk result (λ b. IsTrue b ↔ (first ≡ Some (canonical definition.now.header))) }
{
    let header = canonical(alloc, definition.header())?;
    match first {
        Some(first) => Ok(are_same(first.as_slice(), header.as_slice())),
        None => Ok(false),
    }
}

/// The function that a canonical header and lines define.
#[tactic(auto, using(crate::proofs::OneDefinition::no_texts, crate::proofs::OneDefinition::no_definition))]
pub(crate) fn read_definition(
    alloc: Global,
    header: &TextField,
    lines: &[TextField],
) -> Result<Definition, LoadFault>
    ensures found { IfOk result (λ d. IsDefinitionOf header.now lines.now d × IsDefined d) }
    ensures refused { IfErr result (Refuses fault.Definition (λ d. IsDefinitionOf header.now lines.now d × IsDefined d)) }
{
    let texts = read_texts(alloc, header, lines)?;
    let first = first_of(alloc, texts.as_slice())?;
    let definition = defined(alloc, texts)?;
    if is_headed(alloc, &definition, first)? {
        Ok(definition)
    } else {
        Err(LoadFault::Definition)
    }
}
