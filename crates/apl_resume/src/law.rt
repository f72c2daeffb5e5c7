// The laws of cut runs, and of the order of contexts.
ghost use Rattle.apl_resume.specs.Law.{CutInSingleSteps, CutIsUncut};
ghost use Rattle.apl_resume.specs.Quiet.{QuietWhereClean};
ghost use Rattle.apl_resume.specs.Standing.{AlwaysInOrder};

use apl_order::{interrupts_keep_order, statements_keep_order, steps_keep_order};

/// The law that a run which is cut at its stops is the same run as without them.
pub fn cut_is_uncut()
    ensures { CutIsUncut }
{}

/// The law that the cut run of every idle state is the one in single steps, with a budget: so many
/// steps at first, and two more at each stop.
pub fn cut_in_single_steps()
    ensures { CutInSingleSteps }
{}

/// The law that where neither `⎕STOP` nor `⍎` stands no run reduces a phrase of `⎕STOP`.
pub fn quiet_where_clean()
    ensures { QuietWhereClean }
{}

/// The law that whatever lines are typed, steps made and interrupts sent, contexts in order stay so.
pub fn always_in_order()
    ensures { AlwaysInOrder }
{
    steps_keep_order();
    interrupts_keep_order();
    statements_keep_order();
}
