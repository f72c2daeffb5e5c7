//! Names of a file.
ghost use Rattle.std.specs.Prelude.{◌≡◌, ◌↔◌, IsTrue, IfOk, IfErr};
ghost use Rattle.apl_charset.specs.Text.{IsLine};
ghost use Rattle.apl_tokens.specs.Spelling.{IsName};
ghost use Rattle.apl_loading.specs.Numbers.{Refuses};
ghost use Rattle.apl_loading.specs.declared.error.LoadFault.TheVariants as fault;

use crate::error::LoadFault;
use crate::texts::{are_same, read_text, text_of};
use apl_defn::name_of;
use apl_symbols::Name;
use apl_workspace_file::TextField;
use std::alloc::Global;

/// The name that a field is.
pub(crate) fn read_name(alloc: Global, field: &TextField) -> Result<Name, LoadFault>
    ensures found { IfOk result (λ name. IsLine field.now name × IsName name) }
    ensures refused { IfErr result (Refuses fault.Definition (λ name. IsLine field.now name × IsName name)) }
{
    let text = read_text(alloc, field, LoadFault::Definition)?;
    let Some(name) = name_of(alloc, text.as_slice())? else {
        return Err(LoadFault::Definition);
    };
    // A name with blanks round it is none of a file.
    if !are_same(name.as_slice(), text.as_slice()) {
        return Err(LoadFault::Definition);
    }
    Ok(name)
}

/// The name that a field is, where it is this one.
pub(crate) fn is_named(alloc: Global, field: &TextField, name: &Name) -> Result<bool, LoadFault>
    ensures same { IfOk result (λ b. IsTrue b ↔ IsLine field.now name.now) }
    ensures memory { IfErr result (λ e. e ≡ fault.Memory) }
{
    match text_of(alloc, field.as_str())? {
        Some(text) => Ok(are_same(text.as_slice(), name.as_slice())),
        None => Ok(false),
    }
}
