// What a call's run reads from and writes to.
ghost use Rattle.std.specs.Prelude.{◌≡◌, ◌++◌, [], take, IfOk, OnOk, OnErr};

use apl_devices::{Failed, Sink, Source};
use std::alloc::Global;

/// Bytes that are read from their start. They never fail.
#[derive(Drop)]
pub struct Input<'a> {
    left: &'a [u8],
}

impl<'a> Input<'a> {
    /// These bytes, of which none is read yet.
    pub fn new(bytes: &'a [u8]) -> Input<'a>
        ensures { result.left.now ≡ bytes.now }
    {
        Input { left: bytes }
    }
}

impl<'a> Source for Input<'a> {
    ghost use Rattle.std.specs.Prelude.{true, false};

    ghost tells = { true };

    ghost left = { λ i. i.left.now };

    ghost failed = { λ _. false };

    fn read(&mut self, buffer: &mut [u8]) -> Result<usize, Failed> {
        let count = self.left.len().min(buffer.len());
        let (moved, rest) = self.left.split_at(count);
        let (prefix, _) = buffer.split_at_mut(count);
        prefix.copy_from_slice(moved);
        self.left = rest;
        Ok(count)
    }
}

/// Bytes as they are written. They fail only out of memory.
#[derive(Drop)]
pub struct Output {
    bytes: Vec<u8>,
    failed: bool,
}

impl Output {
    /// No bytes yet, and no failure.
    pub fn new(alloc: Global) -> Output
        ensures { result.bytes.items ≡ [] }
    {
        Output {
            bytes: Vec::new(alloc),
            failed: false,
        }
    }

    /// All that was written.
    pub fn into_bytes(self) -> Vec<u8>
        ensures { result.items ≡ self.bytes.items }
    {
        self.bytes
    }
}

impl Sink for Output {
    ghost use Rattle.std.specs.Prelude.{true};

    ghost tells = { true };

    ghost written = { λ o. o.bytes.items };

    ghost failed = { λ o. o.failed };

    fn write(&mut self, bytes: &[u8]) -> Result<usize, Failed> {
        if self.bytes.extend_from_slice(bytes).is_err() {
            self.failed = true;
            return Err(Failed);
        }
        Ok(bytes.len())
    }
}
