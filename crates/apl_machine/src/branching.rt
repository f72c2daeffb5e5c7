//! Branches, and `→` alone.
ghost use Rattle.std.specs.Prelude.{◌≡◌, [], IfOk, IsSome, List, OnErr, OnOk};
ghost use Rattle.apl_contexts.specs.Contexts.{behind, line_in};
ghost use Rattle.apl_machine_state.specs.declared.output.OutLine.{OutLine};
ghost use Rattle.apl_order.specs.Kept.{IsKept};
ghost use Rattle.apl_machine.specs.Spaces.{IsSound, IsStatement, branched_in, escaped_in, left_behind, state_of};

use crate::returns::returning;
use crate::workspace::Workspace;
use apl_contexts::function_line;
use apl_frames::FrameBuf;
use apl_machine_state::OutLine;
use std::alloc::AllocError;

impl Workspace {
    /// The nearest, a typed statement, branches: it goes, and the call beneath it begins the line, or
    /// returns where it has no such line. After an error nothing has changed.
    fn resume(&mut self, aim: Option<usize>) -> Result<(), AllocError>
        requires sound { IsSound self.old }
        requires kept { IsKept (state_of self.old) }
        requires statement { IsStatement self.old.contexts }
        ensures sound { IsSound self.new }
        ensures ok { OnOk result ((lines : List OutLine) → state_of self.new ≡ (branched_in self.old aim lines).state) }
        ensures err { OnErr result (self.new ≡ self.old) }
    {
        let Some(at) = aim else {
            self.contexts.leave();
            return Ok(());
        };
        let below = self.contexts.stack().beneath();
        let Some(call) = below.call() else {
            self.contexts.leave();
            return Ok(());
        };
        if let Some(_text) = call.definition().line(at) {
            let translated = function_line(
                &mut self.lines,
                &self.names,
                &mut self.cache,
                call.function(),
                at,
            )?;
            let line = FrameBuf::of(self.alloc, translated)?;
            self.contexts.leave();
            self.contexts.put_line(at, line);
            return Ok(());
        }
        let (given, mut report) = returning(self.alloc, &self.names, call, below.beneath())?;
        self.output.append(&mut report)?;
        self.contexts.leave();
        self.leave(given);
        Ok(())
    }

    /// The line of the nearest statement or call has branched: to the line of this number, or on. In a
    /// function these lines are written. Tells whether it stopped. After an error nothing has changed.
    pub(crate) fn branch(
        &mut self,
        aim: Option<usize>,
        lines: Vec<OutLine>,
    ) -> Result<bool, AllocError>
        requires sound { IsSound self.old }
        requires kept { IsKept (state_of self.old) }
        requires runs { IsSome (line_in self.old.contexts) }
        ensures sound { IsSound self.new }
        ensures ok { OnOk result (state_of self.new ≡ (branched_in self.old aim lines.items).state) }
        ensures stopped { IfOk result (λ stopped. stopped ≡ (branched_in self.old aim lines.items).stopped) }
        ensures err { OnErr result (self.new ≡ self.old) }
    {
        if let Some(call) = self.contexts.call() {
            let at = aim.unwrap_or(call.at() + 1);
            return self.arrive(at, lines);
        }
        self.resume(aim)?;
        Ok(false)
    }

    /// The contexts from the newest through the nearest statement go.
    fn drop_statement(&mut self)
        requires { IsSound self.old }
        ensures { self.new ≡ record self.old { maps = left_behind self.old.maps self.old.contexts; contexts = behind self.old.contexts } }
    {
        while self.contexts.call().is_some() {
            self.contexts.leave();
            self.names.leave();
        }
        self.contexts.leave();
    }

    /// The contexts from the newest through the nearest statement go; one that was typed goes before
    /// that, with the texts that it executes.
    fn escape_silently(&mut self)
        requires sound { IsSound self.old }
        requires runs { IsSome (line_in self.old.contexts) }
        ensures sound { IsSound self.new }
        ensures state { state_of self.new ≡ escaped_in self.old [] }
    {
        if self.contexts.call().is_none() {
            self.contexts.leave();
        }
        self.drop_statement();
    }

    /// `→` alone, and these lines are written: the contexts from the newest through the nearest
    /// statement go; one that was typed goes before that. After an error nothing has changed.
    pub(crate) fn escape(&mut self, mut lines: Vec<OutLine>) -> Result<(), AllocError>
        requires sound { IsSound self.old }
        requires runs { IsSome (line_in self.old.contexts) }
        ensures sound { IsSound self.new }
        ensures ok { OnOk result (state_of self.new ≡ escaped_in self.old lines.items) }
        ensures err { OnErr result (self.new ≡ self.old) }
    {
        self.output.append(&mut lines)?;
        self.escape_silently();
        Ok(())
    }
}
