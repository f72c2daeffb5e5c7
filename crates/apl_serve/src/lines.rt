//! Requests that are read.
ghost use Rattle.std.specs.Prelude.{◌≡◌, ◌≢◌, ◌==◌, length, if◌then◌else◌, IfErr, IfOk, IsTrue};
ghost use Rattle.apl_serve.specs.Serving.{reader_failed};
ghost use Rattle.apl_serve.specs.inside.Parts.{DropsLine, IsShort, ReadsRequest};

use crate::error::{Refusal, ServeError};
use apl_devices::{Failed, Source, read_byte};
use std::alloc::Global;

/// The most bytes of a request.
const MAX_REQUEST: usize = 100_000_000;

/// What is read of an input up to a line feed or to its end.
#[derive(Drop)]
pub(crate) enum Line {
    /// Nothing stands before the end.
    End,
    /// The bytes of a request.
    Whole(Vec<u8>),
    /// The bytes of a request aren't kept, for this reason.
    Dropped(Refusal),
}

/// What stands before the end of the input.
fn ended(request: Vec<u8>) -> Line
    ensures { result ≡ (if length request.items == 0 then Line.End else Line.Whole request) }
{
    if request.is_empty() {
        Line::End
    } else {
        Line::Whole(request)
    }
}

/// Reads on to a line feed or the end, and keeps nothing.
fn drop_line<R: Source>(reader: &mut R) -> Result<(), ServeError>
    ensures line { IsTrue R.tells → DropsLine (R.left reader.old) result (R.left reader.new) }
    ensures reading { IfErr result (λ e. e ≢ ServeError.Write) }
    ensures reader { R.failed reader.new ≡ reader_failed result (R.failed reader.old) }
{
    for _ in 0..u64::MAX {
        match read_byte(reader) {
            Err(Failed) => return Err(ServeError::Read),
            Ok(None) => return Ok(()),
            Ok(Some(b'\n')) => return Ok(()),
            Ok(Some(_)) => {}
        }
    }
    Err(ServeError::TooMany)
}

/// Reads the next request. One that has over 100,000,000 bytes, or for whose bytes there is no memory, is read to its end and dropped.
pub(crate) fn read_request<R: Source>(alloc: Global, reader: &mut R) -> Result<Line, ServeError>
    ensures request { IsTrue R.tells → ReadsRequest (R.left reader.old) result (R.left reader.new) }
    ensures short { IfOk result IsShort }
    ensures reading { IfErr result (λ e. e ≢ ServeError.Write) }
    ensures reader { R.failed reader.new ≡ reader_failed result (R.failed reader.old) }
{
    let mut request = Vec::new(alloc);
    loop {
        match read_byte(reader) {
            Err(Failed) => return Err(ServeError::Read),
            Ok(None) => return Ok(ended(request)),
            Ok(Some(b'\n')) => return Ok(Line::Whole(request)),
            Ok(Some(byte)) => {
                if request.len() == MAX_REQUEST {
                    drop_line(reader)?;
                    return Ok(Line::Dropped(Refusal::Length));
                }
                if request.push(byte).is_err() {
                    drop_line(reader)?;
                    return Ok(Line::Dropped(Refusal::Memory));
                }
            }
        }
    }
}
