//! A workspace taken apart, and put together again.
ghost use Rattle.std.specs.Prelude.{◌≡◌, IfOk};
ghost use Rattle.apl_order.specs.Kept.{IsKept};
ghost use Rattle.apl_parts.specs.Restored.{AreWhole, state_of};
ghost use Rattle.apl_parts.specs.Taken.{parts_of};

use crate::machine::Machine;
use crate::workspace::Workspace;
use apl_contexts::Lines;
use apl_parts::{Parts, Restored, restored, taken};
use apl_translate::Cache;
use std::alloc::{AllocError, Global};

impl Machine {
    /// The workspace in parts: its global functions with their vectors, its variables, its index origin, and its
    /// contexts, each as it waits. What is being done by the newest context, where the machine runs, is told as
    /// if it waited. The error is that memory has run out.
    pub fn parts(&self) -> Result<Parts, AllocError>
        ensures kept { IsKept self.now }
        ensures parts { IfOk result (λ p. p ≡ parts_of self.now) }
    {
        let space = &self.workspace;
        taken(
            space.alloc,
            &space.names,
            &space.stops,
            &space.traces,
            space.io,
            &space.contexts,
        )
    }

    /// The machine of these parts, which nobody has written to. The error is that memory has run out.
    pub fn from_parts(alloc: Global, parts: Parts) -> Result<Machine, AllocError>
        requires { AreWhole parts }
        ensures { IfOk result (λ m. m ≡ state_of parts) }
    {
        Machine::from_parts_with(alloc, parts, Cache::new(alloc))
    }

    /// The same, where some of the lines were translated already: this cache is the machine's from then on.
    pub fn from_parts_with(
        alloc: Global,
        parts: Parts,
        mut cache: Cache,
    ) -> Result<Machine, AllocError>
        requires { AreWhole parts }
        ensures { IfOk result (λ m. m ≡ state_of parts) }
    {
        let Restored {
            names,
            stops,
            traces,
            origin,
            contexts,
        } = restored(alloc, parts, &mut cache)?;
        Ok(Machine {
            workspace: Workspace {
                alloc,
                names,
                stops,
                traces,
                io: origin,
                cache,
                lines: Lines::new(alloc),
                contexts,
                output: Vec::new(alloc),
            },
        })
    }
}
