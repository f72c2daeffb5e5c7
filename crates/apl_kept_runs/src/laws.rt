//! The laws of what runs leave, and of runs that are saved on their way.
ghost use Rattle.apl_kept_runs.specs.Promises.{CutRunsCanBeKept, KeptRunsAreTheSame, ReachedRunsAreTheSame, RunsCanBeKept};

use apl_runs::lines_leave_idle;

/// The law that the cut run of a line is the same run where it is saved, loaded again and gone on with at
/// its stops, at whichever of them: at each of them the machine can be saved, and what follows, the states
/// and what is written, is what follows without. It holds of each state that can be saved, and so wherever
/// a machine came to.
pub fn kept_runs_are_the_same()
    ensures savable { KeptRunsAreTheSame }
    ensures reached { ReachedRunsAreTheSame }
{
    // Nothing is done: the law is of the definitions.
}

/// The law that what the cut run of a line leaves can be saved, and is the same when it is loaded, but for
/// its output and a definition that is open.
pub fn cut_runs_can_be_kept()
    ensures { CutRunsCanBeKept }
{
    lines_leave_idle();
}

/// The law that what a run over lines gives can be saved, and is the same when it is loaded, whether the
/// stops on the way are answered or not.
pub fn runs_can_be_kept()
    ensures { RunsCanBeKept }
{
    lines_leave_idle();
}
