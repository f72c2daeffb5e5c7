// How a function is written.
ghost use Rattle.std.specs.Prelude.{◌≡◌, ◌++◌, ◌∷◌, [], IfOk, OnOk};
ghost use Rattle.std.specs.List.{flat_map};
ghost use Rattle.std.specs.Option.{option_to_list, option_copied};
ghost use Rattle.apl_defn.specs.Listing.{canonical, numbered, margin, listed};

use crate::definition::Definition;
use crate::parts::Header;
use apl_charset::{Ch, Text, push_ascii, push_number};
use apl_symbols::Name;
use std::alloc::{AllocError, Global};

/// Adds a name and a character behind it.
fn push_before(out: &mut Vec<Ch>, name: Option<&Name>, mark: Ch) -> Result<(), AllocError>
    ensures { OnOk result (out.new.items ≡ out.old.items ++ flat_map (λ n. n ++ mark ∷ []) (option_to_list (option_copied name.entry))) }
{
    if let Some(name) = name {
        out.extend_from_slice(name.as_slice())?;
        out.push(mark)?;
    }
    Ok(())
}

/// Adds a blank and a name.
fn push_argument(out: &mut Vec<Ch>, name: Option<&Name>) -> Result<(), AllocError>
    ensures { OnOk result (out.new.items ≡ out.old.items ++ flat_map (λ n. 32 ∷ n) (option_to_list (option_copied name.entry))) }
{
    if let Some(name) = name {
        out.push(Ch::ascii(b' '))?;
        out.extend_from_slice(name.as_slice())?;
    }
    Ok(())
}

/// Adds locals, a semicolon before each.
fn push_locals(out: &mut Vec<Ch>, names: &[Name]) -> Result<(), AllocError>
    ensures { OnOk result (out.new.items ≡ out.old.items ++ flat_map (λ n. 59 ∷ n) names.now) }
{
    for name in names {
        out.push(Ch::ascii(b';'))?;
        out.extend_from_slice(name.as_slice())?;
    }
    Ok(())
}

/// Adds a header at the end.
#[tactic(auto, unfolding(apl_charset::specs::Set::is_member, crate::specs::Listing::canonical))]
fn push_header(out: &mut Vec<Ch>, header: &Header) -> Result<(), AllocError>
    ensures { OnOk result (out.new.items ≡ out.old.items ++ canonical header.now) }
{
    push_before(out, header.result.as_ref(), Ch::member('←'))?;
    push_before(out, header.left.as_ref(), Ch::ascii(b' '))?;
    out.extend_from_slice(header.name.as_slice())?;
    push_argument(out, header.right.as_ref())?;
    push_locals(out, header.locals.as_slice())?;
    Ok(())
}

/// The text of a header with one blank between names and no other blanks, as `Z←A F B;X;⎕IO`.
pub fn canonical(alloc: Global, header: &Header) -> Result<Text, AllocError>
    ensures { IfOk result (λ text. text ≡ canonical header.now) }
{
    let mut out = Vec::new(alloc);
    push_header(&mut out, header)?;
    Ok(Text::new(out))
}

/// Four blanks and `∇`.
#[tactic(auto, unfolding(apl_charset::specs::Set::is_member))]
fn margin(alloc: Global) -> Result<Vec<Ch>, AllocError>
    ensures { IfOk result (λ v. v.items ≡ margin) }
{
    let mut out = Vec::new(alloc);
    push_ascii(&mut out, b"    ")?;
    out.push(Ch::member('∇'))?;
    Ok(out)
}

/// A line behind its number.
fn numbered(alloc: Global, n: usize, line: &[Ch]) -> Result<Text, AllocError>
    ensures { IfOk result (λ text. text ≡ numbered n line.now) }
{
    let mut out = Vec::new(alloc);
    push_ascii(&mut out, b"[")?;
    push_number(&mut out, n as u64)?;
    push_ascii(&mut out, b"] ")?;
    out.extend_from_slice(line)?;
    Ok(Text::new(out))
}

/// Four blanks, `∇ ` and the header.
fn head_line(alloc: Global, header: &Header) -> Result<Text, AllocError>
    ensures { IfOk result (λ text. text ≡ margin ++ (32 ∷ canonical header.now)) }
{
    let mut out = margin(alloc)?;
    out.push(Ch::ascii(b' '))?;
    push_header(&mut out, header)?;
    Ok(Text::new(out))
}

/// The lines that show a function: four blanks, `∇ ` and its header as [`canonical`] writes it;
/// each line behind its number in brackets and a blank; four blanks and `∇`.
#[tactic(auto, unfolding(crate::specs::Listing::listed))]
pub fn show(alloc: Global, definition: &Definition) -> Result<Vec<Text>, AllocError>
    ensures { IfOk result (λ v. v.items ≡ listed definition.now) }
{
    let mut out = Vec::with_capacity(alloc, definition.len() + 2)?;
    out.push(head_line(alloc, definition.header())?)?;
    let lines = definition.lines();
    for (i, line) in lines.iter().enumerate() {
        out.push(numbered(alloc, i + 1, line.as_slice())?)?;
    }
    out.push(Text::new(margin(alloc)?))?;
    Ok(out)
}
