// What a run reads from and writes to.
ghost use Rattle.std.specs.Prelude.{◌≡◌, ◌≢◌, ℕ, ◌<◌, ◌≤◌, List, [], ◌++◌, Bool, true, false, take, length, IfOk, OnOk, OnErr, IsTrue};
ghost use Rattle.apl_devices.specs.Devices.{TakesFirst, TakesPiece, Wrote, Extends};

use thiserror::Error;

/// A device failed, and moved no byte.
#[derive(Clone, Copy, Debug, PartialEq, Eq, Error)]
#[error("the device failed")]
pub struct Failed;

/// A reader, which may tell its bytes.
pub trait Source {
    /// Whether it tells its bytes.
    ghost tells: { Bool };

    /// The bytes left.
    ghost left: { Self → List ℕ };

    /// Whether it has failed.
    ghost failed: { Self → Bool };

    /// Reads some bytes to the start of the buffer, and counts them. None into a buffer with room
    /// is the end.
    fn read(&mut self, buffer: &mut [u8]) -> Result<usize, Failed>
        ensures within { IfOk result (λ n. n ≤ length buffer.new) }
        ensures bytes { IsTrue tells → IfOk result (λ n. left self.old ≡ take n buffer.new ++ left self.new) }
        ensures end { IsTrue tells → 0 < length buffer.new → IfOk result (λ n. n ≡ 0 → left self.old ≡ []) }
        ensures fine { OnOk result (failed self.new ≡ failed self.old) }
        ensures failed { OnErr result (failed self.new ≡ true) }
        ensures none { IsTrue tells → OnErr result (left self.new ≡ left self.old) };

    /// Takes bytes that stand before the next line feed, at most so many, and adds them to a line: those that are at hand, and it may be none.
    /// False: nothing is left.
    fn take_piece(&mut self, line: &mut Vec<u8>, most: usize) -> Result<bool, Failed>
        ensures piece { TakesPiece most line.old.items line.new.items }
        ensures bytes { IsTrue tells → line.old.items ++ left self.old ≡ line.new.items ++ left self.new }
        ensures end { IsTrue tells → IfOk result (λ more. more ≡ false → left self.old ≡ []) }
        ensures fine { OnOk result (failed self.new ≡ failed self.old) }
        ensures failed { OnErr result (failed self.new ≡ true) }
        ensures none { OnErr result (line.new.items ≡ line.old.items) }
    {
        Ok(true)
    }

    /// Reads one byte; None is the end.
    fn take_byte(&mut self) -> Result<Option<u8>, Failed>
        ensures bytes { IsTrue tells → TakesFirst (left self.old) result (left self.new) }
        ensures fine { OnOk result (failed self.new ≡ failed self.old) }
        ensures failed { OnErr result (failed self.new ≡ true) }
    {
        let mut buffer = [0u8; 1];
        match self.read(&mut buffer)? {
            0 => Ok(None),
            _ => Ok(Some(buffer[0])),
        }
    }
}

/// A writer, which may tell its bytes.
pub trait Sink {
    /// Whether it tells its bytes.
    ghost tells: { Bool };

    /// The bytes written.
    ghost written: { Self → List ℕ };

    /// Whether it has failed, or has taken no byte of some.
    ghost failed: { Self → Bool };

    /// Takes a prefix of the bytes, and counts it.
    fn write(&mut self, bytes: &[u8]) -> Result<usize, Failed>
        ensures within { IfOk result (λ n. n ≤ length bytes.now) }
        ensures bytes { IsTrue tells → IfOk result (λ n. written self.new ≡ written self.old ++ take n bytes.now) }
        ensures stuck { 0 < length bytes.now → IfOk result (λ n. n ≡ 0 → failed self.new ≡ true) }
        ensures fine { IfOk result (λ n. n ≢ 0 → failed self.new ≡ failed self.old) }
        ensures empty { length bytes.now ≡ 0 → OnOk result (failed self.new ≡ failed self.old) }
        ensures failed { OnErr result (failed self.new ≡ true) }
        ensures none { IsTrue tells → OnErr result (written self.new ≡ written self.old) };
}

/// Reads one byte; None is the end.
#[inline(always)]
pub fn read_byte<R: Source>(reader: &mut R) -> Result<Option<u8>, Failed>
    ensures bytes { IsTrue R.tells → TakesFirst (R.left reader.old) result (R.left reader.new) }
    ensures fine { OnOk result (R.failed reader.new ≡ R.failed reader.old) }
    ensures failed { OnErr result (R.failed reader.new ≡ true) }
{
    reader.take_byte()
}

/// Writes a prefix of the bytes, and gives the others.
#[tactic(auto, using(crate::proofs::Writing::writing))]
fn write_some<'a, W: Sink>(writer: &mut W, bytes: &'a [u8]) -> Result<&'a [u8], Failed>
    requires { 0 < length bytes.now }
    ensures shorter { IfOk result (λ rest. length rest.now < length bytes.now) }
    ensures ok { IsTrue W.tells → IfOk result (λ rest. Wrote (W.written writer.old) (W.written writer.new) bytes.now rest.now) }
    ensures err { IsTrue W.tells → OnErr result (W.written writer.new ≡ W.written writer.old) }
    ensures failed { OnErr result (W.failed writer.new ≡ true) }
    ensures fine { OnOk result (W.failed writer.new ≡ W.failed writer.old) }
{
    match writer.write(bytes) {
        Ok(0) => Err(Failed),
        Ok(count) => {
            let (_, rest) = bytes.split_at(count);
            Ok(rest)
        }
        Err(Failed) => Err(Failed),
    }
}

/// Writes all the bytes, or after an error a prefix of them.
#[tactic(auto, using(crate::proofs::Writing::writing))]
pub fn write_all<W: Sink>(writer: &mut W, bytes: &[u8]) -> Result<(), Failed>
    ensures ok { IsTrue W.tells → OnOk result (W.written writer.new ≡ W.written writer.old ++ bytes.now) }
    ensures prefix { IsTrue W.tells → OnErr result (Extends (W.written writer.old) (W.written writer.new) bytes.now) }
    ensures failed { OnErr result (W.failed writer.new ≡ true) }
    ensures fine { OnOk result (W.failed writer.new ≡ W.failed writer.old) }
{
    let mut rest = bytes;
    while !rest.is_empty() {
        match write_some(writer, rest) {
            Ok(others) => rest = others,
            Err(Failed) => return Err(Failed),
        }
    }
    Ok(())
}
