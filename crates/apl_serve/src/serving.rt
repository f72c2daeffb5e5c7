//! A session is served.
ghost use Rattle.std.specs.Prelude.{◌≡◌, ◌≤◌, length, IsTrue};
ghost use Rattle.apl_serve.specs.Answers.{most};
ghost use Rattle.apl_serve.specs.Serving.{EndsServing, reader_failed, writer_failed};
ghost use Rattle.apl_serve.specs.inside.Parts.{ServesOne, Writes, WritesAnswer};

use crate::error::ServeError;
use crate::lines::{Line, read_request};
use crate::requests::do_request;
use apl_devices::{Failed, Sink, Source, write_all};
use apl_kept::Kept;
use std::alloc::Global;

/// Writes an answer. After an error a prefix of it is written.
fn write_answer<W: Sink>(writer: &mut W, answer: &[u8]) -> Result<(), ServeError>
    ensures wrote { Writes result answer.now W.tells (W.written writer.old) (W.written writer.new) }
    ensures writer { W.failed writer.new ≡ writer_failed result (W.failed writer.old) }
{
    match write_all(writer, answer) {
        Ok(()) => Ok(()),
        Err(Failed) => Err(ServeError::Write),
    }
}

/// Does what a request asks for, and writes the answer.
fn serve_request<W: Sink>(
    alloc: Global,
    kept: &mut Kept,
    request: &[u8],
    writer: &mut W,
) -> Result<(), ServeError>
    requires { length request.now ≤ most }
    ensures served { WritesAnswer result kept.old request.now kept.new W.tells (W.written writer.old) (W.written writer.new) }
    ensures writer { W.failed writer.new ≡ writer_failed result (W.failed writer.old) }
{
    match do_request(alloc, kept, request) {
        Ok(answer) => write_answer(writer, answer.as_slice()),
        Err(refusal) => write_answer(writer, refusal.text().as_bytes()),
    }
}

/// Reads a request and writes its answer. False: the input is at its end.
fn serve_one<R: Source, W: Sink>(
    alloc: Global,
    kept: &mut Kept,
    reader: &mut R,
    writer: &mut W,
) -> Result<bool, ServeError>
    ensures served { IsTrue R.tells → ServesOne result kept.old kept.new (R.left reader.old) (R.left reader.new) W.tells (W.written writer.old) (W.written writer.new) }
    ensures reader { R.failed reader.new ≡ reader_failed result (R.failed reader.old) }
    ensures writer { W.failed writer.new ≡ writer_failed result (W.failed writer.old) }
{
    match read_request(alloc, reader)? {
        Line::End => return Ok(false),
        Line::Whole(request) => {
            serve_request(alloc, kept, &request, writer)?;
            return Ok(true);
        }
        Line::Dropped(refusal) => {
            write_answer(writer, refusal.text().as_bytes())?;
            return Ok(true);
        }
    }
}

/// Reads requests, one JSON value a line, and answers each by a line of JSON before it reads the next. A last request without a line
/// feed counts. What a request may be, and what it is answered, docs/SERVE.md tells. Errors:
///
/// - Read where the reader failed. The answers to all requests before are written.
/// - Write where the writer failed or took no byte. The answers to all requests but the last that was read are written, and a prefix of
///   the answer to that.
/// - TooMany where 2^64 - 1 requests were read, or as many bytes without a line feed. The answers to all requests are written.
///
/// After an error the session stands after the requests that were read.
pub fn serve<R: Source, W: Sink>(
    alloc: Global,
    kept: &mut Kept,
    reader: &mut R,
    writer: &mut W,
) -> Result<(), ServeError>
    ensures served { IsTrue R.tells → EndsServing result kept.old kept.new (R.left reader.old) (R.left reader.new) W.tells (W.written writer.old) (W.written writer.new) }
    ensures reader { R.failed reader.new ≡ reader_failed result (R.failed reader.old) }
    ensures writer { W.failed writer.new ≡ writer_failed result (W.failed writer.old) }
{
    for _ in 0..u64::MAX {
        if !serve_one(alloc, kept, reader, writer)? {
            return Ok(());
        }
    }
    Err(ServeError::TooMany)
}
