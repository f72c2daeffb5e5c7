// Lines that are read and written.
ghost use Rattle.std.specs.Prelude.{◌≡◌, ◌≢◌, ◌++◌, IfErr, OnOk, IsTrue, string_bytes};
ghost use Rattle.apl_charset.specs.Text.{bytes};
ghost use Rattle.apl_runs.specs.Transcript.{without_return};
ghost use Rattle.apl_runs.specs.Output.{labelled};
ghost use Rattle.apl_runs.specs.Runs.{ReadsEnd, ReadsLine, Writes, reader_failed, writer_failed};

use crate::runs::RunError;
use apl_charset::Ch;
use apl_devices::{Failed, Sink, Source, read_byte, write_all};
use apl_machine::OutLine;
use std::alloc::{AllocError, Global};

/// The most bytes of a line, before its line feed.
const MAX_LINE: usize = 2000;

/// So many lines are written at once.
const AT_ONCE: usize = 64;

/// Takes off a carriage return at the end.
fn drop_return(line: &mut Vec<u8>)
    ensures { line.new.items ≡ without_return line.old.items }
{
    if let Some(13) = line.last() {
        line.pop();
    }
}

/// Reads the next line in place of what the buffer holds. True: a line feed ended it, and it has
/// lost that and a carriage return before it; false: the input ended behind it. After an error the
/// buffer holds what was read of the line, without a byte for which there was no room.
pub fn read_line<R: Source>(reader: &mut R, line: &mut Vec<u8>) -> Result<bool, RunError>
    ensures line { IsTrue R.tells → ReadsLine (R.left reader.old) result line.new.items (R.left reader.new) }
    ensures reading { IfErr result (λ e. e ≢ RunError.Write) }
    ensures reader { R.failed reader.new ≡ reader_failed result (R.failed reader.old) }
{
    line.clear();
    loop {
        match reader.take_piece(line, MAX_LINE - line.len()) {
            Err(Failed) => return Err(RunError::Read),
            Ok(false) => return Ok(false),
            Ok(true) => {}
        }
        match read_byte(reader) {
            Err(Failed) => return Err(RunError::Read),
            Ok(None) => return Ok(false),
            Ok(Some(b'\n')) => {
                drop_return(line);
                return Ok(true);
            }
            Ok(Some(byte)) => {
                if line.len() == MAX_LINE {
                    return Err(RunError::LineTooLong);
                }
                line.push(byte)?;
            }
        }
    }
}

/// Asks for the end behind the last line that may be.
pub fn read_end<R: Source>(reader: &mut R) -> Result<(), RunError>
    ensures end { IsTrue R.tells → ReadsEnd (R.left reader.old) result (R.left reader.new) }
    ensures reading { IfErr result (λ e. e ≢ RunError.Write) }
    ensures reader { R.failed reader.new ≡ reader_failed result (R.failed reader.old) }
{
    match read_byte(reader) {
        Ok(None) => Ok(()),
        Ok(Some(_)) => Err(RunError::TooManyLines),
        Err(Failed) => Err(RunError::Read),
    }
}

/// Writes a text. After an error a prefix of it is written.
pub fn write_text<W: Sink>(writer: &mut W, text: &[u8]) -> Result<(), RunError>
    ensures wrote { Writes result text.now W.tells (W.written writer.old) (W.written writer.new) }
    ensures writer { W.failed writer.new ≡ writer_failed result (W.failed writer.old) }
{
    match write_all(writer, text) {
        Ok(()) => Ok(()),
        Err(Failed) => Err(RunError::Write),
    }
}

/// Adds a text in UTF-8.
fn push_text(out: &mut String, text: &[Ch]) -> Result<(), AllocError>
    ensures { OnOk result (string_bytes out.new ≡ string_bytes out.old ++ bytes text.now) }
{
    for c in text {
        out.push(c.code())?;
    }
    Ok(())
}

/// Spells lines in place of what the buffer holds: each behind the label, in UTF-8, with its line feed.
fn spell(text: &mut String, label: &str, lines: &[OutLine]) -> Result<(), AllocError>
    ensures { OnOk result (string_bytes text.new ≡ labelled label.now lines.now) }
{
    text.clear();
    for line in lines {
        text.push_str(label)?;
        push_text(text, line.text.as_slice())?;
        text.push('\n')?;
    }
    Ok(())
}

/// Writes the lines, each behind the label. After an error a prefix of what they spell is written.
#[tactic(auto, using(crate::proofs::Writing::writing))]
pub fn write_lines<W: Sink>(
    alloc: Global,
    writer: &mut W,
    label: &str,
    lines: &[OutLine],
) -> Result<(), RunError>
    ensures wrote { Writes result (labelled label.now lines.now) W.tells (W.written writer.old) (W.written writer.new) }
    ensures writer { W.failed writer.new ≡ writer_failed result (W.failed writer.old) }
{
    let mut text = String::new(alloc);
    let mut left = lines;
    while !left.is_empty() {
        let (prefix, rest) = left.split_at(left.len().min(AT_ONCE));
        spell(&mut text, label, prefix)?;
        write_text(writer, text.as_bytes())?;
        left = rest;
    }
    Ok(())
}
