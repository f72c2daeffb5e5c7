// What does the lines of a run.
ghost use Rattle.std.specs.Prelude.{◌≡◌, OnOk};
ghost use Rattle.apl_runs.specs.Runs.{Writes, writer_failed};

use crate::runs::RunError;
use apl_devices::Sink;
use std::alloc::Global;

/// What does the lines of a run, and writes what comes of them.
pub trait Listener {
    ghost use Rattle.apl_runs.specs.Ways.{Way};

    /// What the lines change.
    type On;

    /// What they make of it.
    ghost way: { Self → Way Self.On };

    /// How that stands between two lines.
    ghost IsBetweenLines: { Self.On → Type 0 };

    /// Does a line, and writes what stands to be written then. After an error a prefix of that is
    /// written.
    fn hear<W: Sink>(
        &self,
        alloc: Global,
        on: &mut Self::On,
        line: &[u8],
        writer: &mut W,
    ) -> Result<(), RunError>
        requires { IsBetweenLines on.old }
        ensures state { OnOk result (on.new ≡ (way self.now).quiet ((way self.now).after_line on.old line.now)) }
        ensures wrote { Writes result ((way self.now).unwritten ((way self.now).after_line on.old line.now))
            W.tells (W.written writer.old) (W.written writer.new) }
        ensures between { OnOk result (IsBetweenLines on.new) }
        ensures writer { W.failed writer.new ≡ writer_failed result (W.failed writer.old) };

    /// Does what the end of the input asks for, and writes what stands to be written then. After an
    /// error a prefix of that is written.
    fn end<W: Sink>(&self, alloc: Global, on: &mut Self::On, writer: &mut W) -> Result<(), RunError>
        requires { IsBetweenLines on.old }
        ensures state { OnOk result (on.new ≡ (way self.now).quiet ((way self.now).at_end on.old)) }
        ensures wrote { Writes result ((way self.now).unwritten ((way self.now).at_end on.old)) W.tells (W.written writer.old) (W.written writer.new) }
        ensures between { OnOk result (IsBetweenLines on.new) }
        ensures writer { W.failed writer.new ≡ writer_failed result (W.failed writer.old) };
}
