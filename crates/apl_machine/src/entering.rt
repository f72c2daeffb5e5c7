//! Calls begin.
ghost use Rattle.std.specs.Prelude.{◌≡◌, ◌<◌, true, drop, length, slice_get, IfOk, IfSome, IsSome, OnErr, OnOk, Some};
ghost use Rattle.apl_code.specs.declared.instr.Instr.{Instr};
ghost use Rattle.apl_defn.specs.Definitions.{is_line};
ghost use Rattle.apl_frames.specs.Ends.{IsColumn};
ghost use Rattle.apl_machine_state.specs.declared.operand.Operand.TheVariants.{Value};
ghost use Rattle.apl_names.specs.Owned.{Owns};
ghost use Rattle.apl_contexts.specs.Contexts.{line_in, suspended};
ghost use Rattle.apl_contexts.specs.Moves.{CanMove};
ghost use Rattle.apl_vectors.specs.Vectors.{has_line};
ghost use Rattle.apl_machine.specs.Spaces.{HasComeIn, HasEntered, IsSound, nothing_in, state_of, stopped_in};

use crate::reports::context_fault;
use crate::traces::stop_report;
use crate::workspace::Workspace;
use apl_contexts::{Call, Context, Move, function_line};
use apl_faults::Fault;
use apl_names::DefinedFunction;
use std::alloc::AllocError;

impl Workspace {
    /// A call of a function, whose names stand in the newest scope, begins its first line.
    fn begin_call(&mut self, function: DefinedFunction, left: usize) -> Result<(), AllocError>
        requires can { IfSome (line_in self.old.contexts) (λ f. CanMove (Move.Awaits left) f) }
        requires line { is_line function 1 ≡ true }
        requires own { Owns self.old.maps function }
        ensures ok { OnOk result (HasEntered self.old self.new function left) }
        ensures err { OnErr result (self.new ≡ self.old) }
    {
        let Some(_text) = function.definition().line(1) else {
            unreachable!()
        };
        let translated = function_line(
            &mut self.lines,
            &self.names,
            &mut self.cache,
            &function,
            1,
        )?;
        self.contexts
            .enter_call(self.alloc, function, translated, left)?;
        Ok(())
    }

    /// A call of a function, whose names stand in the newest scope, is suspended before its first line,
    /// which is reported. After an error nothing has changed.
    fn stop_call(&mut self, function: DefinedFunction, left: usize) -> Result<(), AllocError>
        requires can { IfSome (line_in self.old.contexts) (λ f. CanMove (Move.Awaits left) f) }
        requires line { is_line function 1 ≡ true }
        ensures ok { OnOk result (self.new ≡ stopped_in self.old function left) }
        ensures err { OnErr result (self.new ≡ self.old) }
    {
        let report = stop_report(self.alloc, function.definition(), 1)?;
        self.output.reserve(1)?;
        let call = Call::stopped(function, 1);
        self.contexts.enter(Context::Call(call), left)?;
        self.output.push_reserved(report);
        Ok(())
    }

    /// A call of a function, whose names stand in the newest scope, is suspended before its first line, or
    /// begins it. After an error nothing has changed.
    fn come_in(
        &mut self,
        function: DefinedFunction,
        stops: bool,
        left: usize,
    ) -> Result<(), AllocError>
        requires can { IfSome (line_in self.old.contexts) (λ f. CanMove (Move.Awaits left) f) }
        requires line { is_line function 1 ≡ true }
        requires own { Owns self.old.maps function }
        ensures ok { OnOk result (HasComeIn stops self.old self.new function left) }
        ensures err { OnErr result (self.new ≡ self.old) }
    {
        if stops {
            return self.stop_call(function, left);
        }
        self.begin_call(function, left)
    }

    /// A function without lines is called from the newest line, and returns at once, without a
    /// value. After an error nothing has changed.
    pub(crate) fn call_nothing(&mut self, left: usize) -> Result<(), AllocError>
        requires sound { IsSound self.old }
        requires can { IfSome (line_in self.old.contexts) (λ f. CanMove (Move.Awaits left) f) }
        requires placed { IfSome (line_in self.old.contexts) (λ f. (i : Instr) × (slice_get f.code f.done ≡ Some i) × IsColumn i.at) }
        requires runs { IsSome (line_in self.old.contexts) }
        ensures sound { IsSound self.new }
        ensures ok { OnOk result (state_of self.new ≡ nothing_in self.old left) }
        ensures err { OnErr result (self.new ≡ self.old) }
    {
        let Some(line) = self.contexts.line() else {
            unreachable!()
        };
        let frame = line.frame();
        let Some(instr) = frame.code.instr(frame.done) else {
            unreachable!()
        };
        let stack = self.contexts.stack();
        let mut report = context_fault(self.alloc, Fault::Value, stack, instr.at)?;
        self.output.reserve(report.len())?;
        self.contexts.change(Move::Awaits(left));
        let Some(line) = self.contexts.line() else {
            unreachable!()
        };
        if line.missing().is_none() {
            self.contexts.change(Move::IsEmptied);
        } else {
            self.output.append(&mut report).unwrap();
            self.contexts.suspend();
        }
        Ok(())
    }

    /// A call of a function with lines, whose names stand in the newest scope, begins its first line, or
    /// stops before it. Tells whether it stopped. After an error that scope is gone, and nothing else has
    /// changed.
    #[inline(always)]
    pub(crate) fn come_into(
        &mut self,
        function: DefinedFunction,
        left: usize,
    ) -> Result<bool, AllocError>
        requires can { IfSome (line_in self.old.contexts) (λ f. CanMove (Move.Awaits left) f) }
        requires line { is_line function 1 ≡ true }
        requires own { Owns self.old.maps function }
        ensures stopped { IfOk result (λ stopped. stopped ≡ has_line function.header.name 1 self.old.kept.stops) }
        ensures ok { IfOk result (λ stopped. HasComeIn stopped self.old self.new function left) }
        ensures err { OnErr result (1 < length self.old.maps → self.new ≡ record self.old { maps = drop 1 self.old.maps }) }
    {
        let stops = self.stops.has(&function.definition().header().name, 1);
        match self.come_in(function, stops, left) {
            Ok(()) => Ok(stops),
            Err(AllocError) => {
                self.names.leave();
                Err(AllocError)
            }
        }
    }
}
