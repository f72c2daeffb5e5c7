// The text of a number, and what stands before it in a line.
ghost use Rattle.std.specs.Prelude.{◌≡◌, ◌++◌, length, replicate, OnOk};
ghost use Rattle.apl_format.specs.Display.{number_text, padded};
ghost use Rattle.apl_format.specs.inside.Parts.{before};

use apl_charset::{Ch, push_number as push_digits};
use itoa::Buffer;
use std::alloc::AllocError;

/// How many characters a number has.
#[tactic(auto, unfolding(crate::specs::Display::number_text))]
pub(crate) fn number_width(number: i64) -> usize
    ensures { result ≡ length (number_text number) }
{
    let mut digits = Buffer::new();
    digits.format(number).len()
}

/// Adds a number at the end. After an error a prefix of it may have been added.
#[tactic(auto, unfolding(crate::specs::Display::number_text))]
pub(crate) fn push_number(line: &mut Vec<Ch>, number: i64) -> Result<(), AllocError>
    ensures { OnOk result (line.new.items ≡ line.old.items ++ number_text number) }
{
    if number < 0 {
        line.push(Ch::member('¯'))?;
        push_digits(line, number.unsigned_abs())?;
        return Ok(());
    }
    push_digits(line, number.unsigned_abs())?;
    Ok(())
}

fn push_blanks(line: &mut Vec<Ch>, count: usize) -> Result<(), AllocError>
    ensures { OnOk result (line.new.items ≡ line.old.items ++ replicate count 32) }
{
    for _ in 0..count {
        line.push(Ch::ascii(b' '))?;
    }
    Ok(())
}

/// Adds a number at the end, right-aligned to a width.
#[tactic(auto, unfolding(crate::specs::Display::padded))]
pub(crate) fn push_padded(line: &mut Vec<Ch>, width: usize, number: i64) -> Result<(), AllocError>
    ensures { OnOk result (line.new.items ≡ line.old.items ++ padded width (number_text number)) }
{
    push_blanks(line, width.saturating_sub(number_width(number)))?;
    push_number(line, number)?;
    Ok(())
}

/// Adds the blank before the number at a place, unless it is the first.
pub(crate) fn push_between(line: &mut Vec<Ch>, place: usize) -> Result<(), AllocError>
    ensures { OnOk result (line.new.items ≡ line.old.items ++ before 32 place) }
{
    if place == 0 {
        return Ok(());
    }
    line.push(Ch::ascii(b' '))?;
    Ok(())
}
