//! Contexts begin, and calls begin lines of their functions.
ghost use Rattle.std.specs.Prelude.{◌≡◌, ◌∷◌, true, IfSome, IsSome, OnErr, OnOk, Some};
ghost use Rattle.apl_defn.specs.Definitions.{is_line};
ghost use Rattle.apl_names.specs.Owned.{Owns};
ghost use Rattle.apl_contexts.specs.Contexts.{call_in, line_in, moved_newest};
ghost use Rattle.apl_contexts.specs.Known.{BeginsLine};
ghost use Rattle.apl_contexts.specs.Moves.{CanMove};
ghost use Rattle.apl_contexts.specs.declared.context.Context.TheVariants as contexts;
ghost use Rattle.apl_frames.specs.Flat.{begun_flat};

use crate::context::Context;
use crate::contexts::Contexts;
use crate::lines::{Lines, function_line};
use crate::moves::Move;
use crate::places::{Entry, change_beneath, lay, lay_begun, take_last};
use apl_charset::Text;
use apl_frames::FrameBuf;
use apl_names::{DefinedFunction, Names};
use apl_translate::{Cache, Translated};
use std::alloc::{AllocError, Global};
use std::rc::Rc;

impl Contexts {
    /// One more. After an error nothing has changed.
    pub fn push(&mut self, context: Context) -> Result<(), AllocError>
        ensures ok { OnOk result (self.new ≡ context ∷ self.old) }
        ensures err { OnErr result (self.new ≡ self.old) }
    {
        let standing = self.standing + context.standing();
        let _ = take_last(&mut self.places, self.count);
        lay(&mut self.places, self.count, context)?;
        self.count += 1;
        self.standing = standing;
        Ok(())
    }

    /// A call or an execute is entered from the newest one, whose line awaits its answer, with so
    /// many operands left. After an error nothing has changed.
    pub fn enter(&mut self, context: Context, left: usize) -> Result<(), AllocError>
        requires { IfSome (line_in self.old) (λ f. CanMove (Move.Awaits left) f) }
        ensures ok { OnOk result (self.new ≡ context ∷ moved_newest (Move.Awaits left) self.old) }
        ensures err { OnErr result (self.new ≡ self.old) }
    {
        let standing = self.standing + context.standing();
        let _ = take_last(&mut self.places, self.count);
        lay(&mut self.places, self.count, context)?;
        change_beneath(&mut self.places, self.count, Move::Awaits(left));
        self.count += 1;
        self.standing = standing;
        Ok(())
    }

    /// A call of a function is entered from the newest one, whose line awaits its answer, with so many operands left, and begins its first
    /// line. After an error nothing has changed.
    #[inline(always)]
    pub fn enter_call(
        &mut self,
        alloc: Global,
        function: DefinedFunction,
        line: Rc<Translated>,
        left: usize,
    ) -> Result<(), AllocError>
        requires can { IfSome (line_in self.old) (λ f. CanMove (Move.Awaits left) f) }
        requires line { is_line function 1 ≡ true }
        ensures ok { OnOk result (self.new ≡ contexts.Call (record { definition = function; at = 1; rest = Some (begun_flat line.value.bound line.value.code) }) ∷ moved_newest (Move.Awaits left) self.old) }
        ensures err { OnErr result (self.new ≡ self.old) }
    {
        let entry = Entry::Call(function);
        lay_begun(&mut self.places, self.count, alloc, entry, line)?;
        change_beneath(&mut self.places, self.count, Move::Awaits(left));
        self.count += 1;
        self.standing += 1;
        Ok(())
    }

    /// A text is executed from the newest one, whose line awaits its answer, with so many operands left, and begins its line. After an
    /// error nothing has changed.
    #[inline(always)]
    pub fn enter_execute(
        &mut self,
        alloc: Global,
        text: Text,
        line: Rc<Translated>,
        left: usize,
    ) -> Result<(), AllocError>
        requires { IfSome (line_in self.old) (λ f. CanMove (Move.Awaits left) f) }
        ensures ok { OnOk result (self.new ≡ contexts.Execute (record { text = text; line = begun_flat line.value.bound line.value.code }) ∷ moved_newest (Move.Awaits left) self.old) }
        ensures err { OnErr result (self.new ≡ self.old) }
    {
        let entry = Entry::Execute(text);
        lay_begun(&mut self.places, self.count, alloc, entry, line)?;
        change_beneath(&mut self.places, self.count, Move::Awaits(left));
        self.count += 1;
        self.standing += 1;
        Ok(())
    }

    /// A typed statement begins its line. After an error nothing has changed.
    #[inline(always)]
    pub fn push_statement(
        &mut self,
        alloc: Global,
        text: Text,
        line: Rc<Translated>,
    ) -> Result<(), AllocError>
        ensures ok { OnOk result (self.new ≡ contexts.Statement (record { text = text; line = begun_flat line.value.bound line.value.code }) ∷ self.old) }
        ensures err { OnErr result (self.new ≡ self.old) }
    {
        let entry = Entry::Statement(text);
        lay_begun(&mut self.places, self.count, alloc, entry, line)?;
        self.count += 1;
        Ok(())
    }

    /// The nearest call begins a line of its function, in the room of the one before, with the classes that its names have now; the texts
    /// that it executes go. The line is a cached one, or it is bound now. The newest map is that of the call. After an
    /// error nothing has changed.
    #[inline(always)]
    pub fn begin_line(
        &mut self,
        alloc: Global,
        names: &Names,
        cache: &mut Cache,
        lines: &mut Lines,
        at: usize,
    ) -> Result<(), AllocError>
        requires call { IsSome (call_in self.old) }
        requires line { IfSome (call_in self.old) (λ c. is_line c.definition at ≡ true) }
        requires own { IfSome (call_in self.old) (λ c. Owns names.now c.definition) }
        ensures ok { OnOk result (BeginsLine names.now self.old self.new at) }
        ensures err { OnErr result (self.new ≡ self.old) }
    {
        if self.count > 0 {
            if let Context::Call(call) = &mut self.places[self.count - 1] {
                call.begin_line(alloc, names, cache, lines, at)?;
                return Ok(());
            }
        }
        self.begin_beneath(alloc, names, cache, lines, at)
    }

    /// The same of a call that executes texts, which go. It stands apart, since calls mostly execute none.
    #[inline(never)]
    fn begin_beneath(
        &mut self,
        alloc: Global,
        names: &Names,
        cache: &mut Cache,
        lines: &mut Lines,
        at: usize,
    ) -> Result<(), AllocError>
        requires call { IsSome (call_in self.old) }
        requires line { IfSome (call_in self.old) (λ c. is_line c.definition at ≡ true) }
        requires own { IfSome (call_in self.old) (λ c. Owns names.now c.definition) }
        ensures ok { OnOk result (BeginsLine names.now self.old self.new at) }
        ensures err { OnErr result (self.new ≡ self.old) }
    {
        let Some(call) = self.call() else {
            unreachable!()
        };
        let line = function_line(lines, names, cache, call.function(), at)?;
        let begun = FrameBuf::of(alloc, line)?;
        self.put_line(at, begun);
        Ok(())
    }
}
