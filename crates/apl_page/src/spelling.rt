//! How lines are spelled: in UTF-8, each with its line feed.
ghost use Rattle.std.specs.Prelude.{◌≡◌, ◌++◌, map, OnOk, IfOk};
ghost use Rattle.apl_page.specs.Spelling.{line_bytes, spelled, texts_of};

use apl_charset::{Ch, Text, encode};
use apl_machine::OutLine;
use std::alloc::{AllocError, Global};

/// Adds a line and its line feed.
fn push_line(alloc: Global, out: &mut Vec<u8>, line: &[Ch]) -> Result<(), AllocError>
    ensures { OnOk result (out.new.items ≡ out.old.items ++ line_bytes line.now) }
{
    let mut text = encode(alloc, line)?;
    text.push(b'\n')?;
    out.append(&mut text)
}

/// What lines spell.
pub(crate) fn spelled(alloc: Global, lines: &[Text]) -> Result<Vec<u8>, AllocError>
    ensures { IfOk result (λ v. v.items ≡ spelled lines.now) }
{
    let mut out = Vec::new(alloc);
    for line in lines {
        push_line(alloc, &mut out, line.as_slice())?;
    }
    Ok(out)
}

/// What lines of output spell.
pub(crate) fn spelled_output(alloc: Global, lines: &[OutLine]) -> Result<Vec<u8>, AllocError>
    ensures { IfOk result (λ v. v.items ≡ spelled (texts_of lines.now)) }
{
    let mut out = Vec::new(alloc);
    for line in lines {
        push_line(alloc, &mut out, line.text.as_slice())?;
    }
    Ok(out)
}
