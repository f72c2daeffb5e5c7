// Devices over the streams of std.
ghost use Rattle.std.specs.Prelude.{◌≡◌, ◌≢◌, ◌==◌, not, ℕ, ◌<◌, ◌≤◌, Bool, true, false, take, length, None, IfOk, OnOk, OnErr};
ghost use Rattle.std.specs.Io.{appended_bytes};
ghost use Rattle.std.specs.Io.KnownBytes.{Consumes, IsAtEnd, ReadConsumes, WriteAppends};
ghost use Rattle.std.specs.List.{list_all};
ghost use Rattle.apl_devices.specs.Devices.{TakesPiece, taken_byte};

use crate::devices::{Failed, Sink, Source};
use std::io::{BufRead, Write};

/// A reader or a writer of std as a device. It tells no bytes.
#[derive(Drop)]
pub struct Device<T> {
    stream: T,
    failed: bool,
}

impl<T> Device<T> {
    /// A device that has not failed.
    pub fn new(stream: T) -> Device<T>
        ensures stream { result.stream ≡ stream }
        ensures fine { result.failed ≡ false }
    {
        Device {
            stream,
            failed: false,
        }
    }
}

impl<T: BufRead> Source for Device<T> {
    ghost use Rattle.std.specs.Prelude.{false, []};

    ghost tells = { false };

    ghost left = { λ _. [] };

    ghost failed = { λ d. d.failed };

    /// One read of the stream.
    fn read(&mut self, buffer: &mut [u8]) -> Result<usize, Failed>
        ensures within { IfOk result (λ n. n ≤ length buffer.new) }
        ensures stream { ReadConsumes (T.remaining self.old.stream) (T.remaining self.new.stream) result buffer.new }
        ensures fine { OnOk result (self.new.failed ≡ self.old.failed) }
        ensures failed { OnErr result (self.new.failed ≡ true) }
    {
        match self.stream.read(buffer) {
            Ok(count) => Ok(count),
            Err(_) => {
                self.failed = true;
                Err(Failed)
            }
        }
    }

    /// What the stream has at hand; where that is nothing, one read of it. It takes none where there is no memory.
    fn take_piece(&mut self, line: &mut Vec<u8>, most: usize) -> Result<bool, Failed>
        ensures piece { TakesPiece most line.old.items line.new.items }
        ensures stream { Consumes (T.remaining self.old.stream) (T.remaining self.new.stream) (appended_bytes line.old.items line.new.items) }
        ensures end { IfOk result (λ more. more ≡ false → IsAtEnd (T.remaining self.old.stream)) }
        ensures fine { OnOk result (self.new.failed ≡ self.old.failed) }
        ensures failed { OnErr result (self.new.failed ≡ true) }
        ensures none { OnErr result (line.new.items ≡ line.old.items) }
    {
        let Ok(front) = self.stream.fill_buf() else {
            self.failed = true;
            return Err(Failed);
        };
        if front.is_empty() {
            return Ok(false);
        }
        let count = piece_length(front, most);
        if line.extend_from_slice(&front[..count]).is_ok() {
            self.stream.consume(count);
        }
        Ok(true)
    }

    /// The first that the stream has at hand; where that is nothing, one read of it.
    fn take_byte(&mut self) -> Result<Option<u8>, Failed>
        ensures stream { Consumes (T.remaining self.old.stream) (T.remaining self.new.stream) (taken_byte result) }
        ensures end { IfOk result (λ byte. byte ≡ None → IsAtEnd (T.remaining self.old.stream)) }
        ensures fine { OnOk result (self.new.failed ≡ self.old.failed) }
        ensures failed { OnErr result (self.new.failed ≡ true) }
    {
        let Ok(front) = self.stream.fill_buf() else {
            self.failed = true;
            return Err(Failed);
        };
        let Some(byte) = front.first().copied() else {
            return Ok(None);
        };
        self.stream.consume(1);
        Ok(Some(byte))
    }
}

/// How many bytes stand before the first line feed, but at most so many.
fn piece_length(bytes: &[u8], most: usize) -> usize
    ensures within { result ≤ length bytes.now }
    ensures short { result ≤ most }
    ensures unbroken { list_all (λ b. not (b == 10)) (take result bytes.now) ≡ true }
{
    for k in 0..bytes.len().min(most) {
        if bytes[k] == b'\n' {
            return k;
        }
    }
    bytes.len().min(most)
}

impl<T: Write> Sink for Device<T> {
    ghost use Rattle.std.specs.Prelude.{false, []};

    ghost tells = { false };

    ghost written = { λ _. [] };

    ghost failed = { λ d. d.failed };

    /// One write to the stream.
    fn write(&mut self, bytes: &[u8]) -> Result<usize, Failed>
        ensures within { IfOk result (λ n. n ≤ length bytes.now) }
        ensures stream { WriteAppends (T.contents self.old.stream) (T.contents self.new.stream) result bytes.now }
        ensures stuck { 0 < length bytes.now → IfOk result (λ n. n ≡ 0 → self.new.failed ≡ true) }
        ensures fine { IfOk result (λ n. n ≢ 0 → self.new.failed ≡ self.old.failed) }
        ensures empty { length bytes.now ≡ 0 → OnOk result (self.new.failed ≡ self.old.failed) }
        ensures failed { OnErr result (self.new.failed ≡ true) }
    {
        match self.stream.write(bytes) {
            Ok(count) => {
                if count == 0 && !bytes.is_empty() {
                    self.failed = true;
                }
                Ok(count)
            }
            Err(_) => {
                self.failed = true;
                Err(Failed)
            }
        }
    }
}
