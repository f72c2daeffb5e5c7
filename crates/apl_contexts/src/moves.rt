//! What becomes of a line between two steps.
ghost use Rattle.std.specs.Prelude.{◌≡◌};
ghost use Rattle.apl_contexts.specs.Moves.{CanMove, moved_by};

use apl_arrays::Array;
use apl_frames::FrameBuf;
use apl_operands::Given;

/// What becomes of a line.
#[derive(Drop)]
pub enum Move {
    /// One more phrase is done: it gave this, with so many operands left.
    GoesOn(Given, usize),
    /// One more phrase is done, a call, with so many operands left.
    Awaits(usize),
    /// The answer of a call has come.
    IsAnswered(Array),
    /// The call that was all of it gave no value.
    IsEmptied,
}

impl Move {
    /// What becomes of a line.
    #[inline(always)]
    pub(crate) fn apply(self, line: &mut FrameBuf)
        requires { CanMove self line.old }
        ensures { line.new ≡ moved_by self line.old }
    {
        match self {
            Move::GoesOn(given, left) => match given {
                Given::New(operand) => line.go_on(left, operand),
                Given::Stays => line.stay(left),
            },
            Move::Awaits(left) => line.await_answer(left),
            Move::IsAnswered(value) => line.answer(value),
            Move::IsEmptied => line.empty(),
        }
    }
}
