//! Texts of a file.
ghost use Rattle.std.specs.Prelude.{◌≡◌, ◌↔◌, ℕ, true, false, List, IsTrue, IfOk, IfErr, IfSome, IfNone};
ghost use Rattle.std.specs.Char.{IsScalar};
ghost use Rattle.apl_charset.specs.Set.{is_member};
ghost use Rattle.apl_charset.specs.Text.{IsLine};
ghost use Rattle.apl_loading.specs.Numbers.{Refuses};
ghost use Rattle.apl_loading.specs.declared.error.LoadFault.TheVariants as fault;

use crate::error::LoadFault;
use crate::field::Field;
use apl_charset::{Ch, Text};
use apl_workspace_file::TextField;
use std::alloc::{AllocError, Global};

/// Whether two texts are the same.
pub(crate) fn are_same(one: &[Ch], other: &[Ch]) -> bool
    ensures { IsTrue result ↔ (one.now ≡ other.now) }
{
    one == other
}

/// A character, if it is in the set. That it is ASCII is asked here, so that the loop calls nothing for most.
#[inline(always)]
#[tactic(auto, unfolding(apl_charset::specs::Set::is_member))]
fn member(c: char) -> Option<Ch>
    ensures some { IfSome result (λ x. (x ≡ c) × (is_member c ≡ true)) }
    ensures none { IfNone result ((is_member c ≡ false) × IsScalar c) }
{
    if matches!(c, ' '..='~') {
        return Some(Ch::ascii(c as u8));
    }
    Ch::new(c)
}

/// The text of a string, where each of its characters is in the set. It is UTF-8, which isn't asked again.
pub(crate) fn text_of(alloc: Global, string: &str) -> Result<Option<Text>, AllocError>
    ensures found { IfOk result (λ o. IfSome o (λ t. IsLine string.now t)) }
    ensures none { IfOk result (λ o. IfNone o ((t : List ℕ) → ¬ IsLine string.now t)) }
{
    // A character takes at least a byte.
    let mut found = Vec::with_capacity(alloc, string.len())?;
    let mut chars = string.chars();
    while let Some(c) = chars.next() {
        let Some(c) = member(c) else {
            return Ok(None);
        };
        found.push(c)?;
    }
    Ok(Some(Text::new(found)))
}

/// The text that a field is. A field outside the set is refused with this fault.
pub(crate) fn read_text(
    alloc: Global,
    field: &TextField,
    fault: LoadFault,
) -> Result<Text, LoadFault>
    ensures found { IfOk result (λ t. IsLine field.now t) }
    ensures refused { IfErr result (Refuses fault (λ t. IsLine field.now t)) }
{
    match text_of(alloc, field.as_str())? {
        Some(text) => Ok(text),
        None => Err(fault),
    }
}

// A line of a definition.
impl Field for TextField {
    type Part = Text;

    ghost small = { λ f. Unit {0} };

    ghost stands_for = { IsLine };

    ghost fault = { fault.Definition };

    fn is_small(&self) -> bool {
        true
    }

    fn read(&self, alloc: Global) -> Result<Text, LoadFault> {
        read_text(alloc, self, LoadFault::Definition)
    }
}
