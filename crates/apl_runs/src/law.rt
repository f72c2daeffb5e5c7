// The law that nothing runs between two lines.
ghost use Rattle.apl_runs.specs.Idle.{LinesLeaveIdle};

use apl_resume::always_in_order;

/// The law that in either way of a run no line leaves a session running where the contexts stand in
/// order, as a machine's do. So each line of a run begins where nothing runs.
pub fn lines_leave_idle()
    ensures { LinesLeaveIdle }
{
    always_in_order();
}
