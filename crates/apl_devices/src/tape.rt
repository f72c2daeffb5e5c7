// Devices in memory.
ghost use Rattle.std.specs.Prelude.{◌≡◌, ◌≢◌, ◌↔◌, ℕ, ◌<◌, ◌≤◌, ◌+◌, [], ◌++◌, take, length, true, false, Some, None, IfOk, OnOk, OnErr, IsErr};
ghost use Rattle.apl_devices.specs.Tapes as model;

use crate::devices::{Failed, Sink, Source};
use std::marker::Model;

/// Bytes in memory, which are read from their start or written at their end. It can be set to fail
/// at a call, and to move few bytes a call.
#[derive(Drop, Debug)]
pub struct Tape {
    bytes: Vec<u8>,
    read: usize,
    failing: Option<u64>,
    most: usize,
    failed: bool,
}

impl Model for Tape {
    ghost use Rattle.std.specs.Prelude.{◌≤◌, length};
    ghost use Rattle.apl_devices.specs.Tapes as model;

    ghost Value = { model.Tape };

    ghost view = { λ t. record { bytes = t.bytes.items; read = t.read; failing = t.failing; most = t.most; failed = t.failed } };

    ghost invariant = { λ t. t.read ≤ length t.bytes.items };
}

impl Tape {
    /// These bytes, of which none has been read. It fails only out of memory.
    pub fn new(bytes: Vec<u8>) -> Tape
        ensures { result ≡ record { bytes = bytes.items; read = 0; failing = None; most = usize.MAX; failed = false } }
    {
        Tape {
            bytes,
            read: 0,
            failing: None,
            most: usize::MAX,
            failed: false,
        }
    }

    /// The same, but after so many calls one call fails.
    pub fn failing_after(self, calls: u64) -> Tape
        ensures { result ≡ record self { failing = Some calls } }
    {
        Tape {
            failing: Some(calls),
            ..self
        }
    }

    /// The same, but a call moves at most so many bytes, and a read at least one, if there is one.
    pub fn moving_at_most(self, most: usize) -> Tape
        ensures { result ≡ record self { most = most } }
    {
        Tape { most, ..self }
    }

    /// All its bytes, those that were read too.
    pub fn bytes(&self) -> &[u8]
        ensures { result.now ≡ self.now.bytes }
    {
        self.bytes.as_slice()
    }

    /// Counts a call, and says whether it is the one that fails.
    fn fails(&mut self) -> bool
        ensures fails { result ≡ true ↔ self.old.failing ≡ Some 0 }
        ensures counted { self.new ≡ model.called self.old }
    {
        match self.failing {
            None => false,
            Some(0) => {
                self.failing = None;
                true
            }
            Some(calls) => {
                self.failing = Some(calls - 1);
                false
            }
        }
    }

    /// The call failed.
    fn fail(&mut self) -> Failed
        ensures { self.new ≡ record self.old { failed = true } }
    {
        self.failed = true;
        Failed
    }
}

impl Source for Tape {
    ghost use Rattle.std.specs.Prelude.{true};
    ghost use Rattle.apl_devices.specs.Tapes as model;

    ghost tells = { true };

    ghost left = { model.left };

    ghost failed = { λ t. t.failed };

    fn read(&mut self, buffer: &mut [u8]) -> Result<usize, Failed>
        ensures fails { IsErr result ↔ (self.old.failing ≡ Some 0) }
        ensures err { OnErr result (self.new ≡ model.broken self.old) }
        ensures count { IfOk result (λ n. n ≡ model.moved_in self.old (length buffer.new)) }
        ensures moved { IfOk result (λ n. take n buffer.new ≡ take n (model.left self.old)) }
        ensures ok { IfOk result (λ n. self.new ≡ model.after_read n self.old) }
    {
        if self.fails() {
            return Err(self.fail());
        }
        let (_, left) = self.bytes.as_slice().split_at(self.read);
        let count = left.len().min(buffer.len()).min(self.most.max(1));
        let (moved, _) = left.split_at(count);
        let (prefix, _) = buffer.split_at_mut(count);
        prefix.copy_from_slice(moved);
        self.read += count;
        Ok(count)
    }
}

impl Sink for Tape {
    ghost use Rattle.std.specs.Prelude.{true};

    ghost tells = { true };

    ghost written = { λ t. t.bytes };

    ghost failed = { λ t. t.failed };

    fn write(&mut self, bytes: &[u8]) -> Result<usize, Failed>
        ensures fails { self.old.failing ≡ Some 0 → IsErr result }
        ensures err { OnErr result (self.new ≡ model.broken self.old) }
        ensures count { IfOk result (λ n. n ≡ model.moved_out self.old (length bytes.now)) }
        ensures ok { IfOk result (λ n. self.new ≡ model.after_write bytes.now n self.old) }
    {
        if self.fails() {
            return Err(self.fail());
        }
        let count = bytes.len().min(self.most);
        let (moved, _) = bytes.split_at(count);
        if self.bytes.extend_from_slice(moved).is_err() {
            return Err(self.fail());
        }
        self.failed = self.failed || (count == 0 && !bytes.is_empty());
        Ok(count)
    }
}
