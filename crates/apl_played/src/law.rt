// Laws of calls that follow one another.
ghost use Rattle.apl_played.specs.Laws.{CutCallsAreOne, LinesKeepReached, LinesKeepSavable};

use apl_kept_sessions::sessions_keep_reached;
use apl_runs::lines_leave_idle;
use apl_savable::reached_is_savable;

/// The law that lines on a workspace's bytes leave nothing running, and a state all of which a workspace file can hold: one to
/// which a machine comes.
pub(crate) fn lines_keep_savable()
    ensures savable { LinesKeepSavable }
    ensures reached { LinesKeepReached }
{
    reached_is_savable();
    sessions_keep_reached();
    lines_leave_idle();
}

/// The law that calls which follow one another are one call with all their lines, where each begins with the workspace that the one
/// before gave, and its lines end with a line feed and leave no definition open.
pub fn cut_calls_are_one()
    ensures { CutCallsAreOne }
{
    // Nothing is done: the law is of the definitions.
}
