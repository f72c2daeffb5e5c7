//! Laws of sessions.
ghost use Rattle.apl_kept_sessions.specs.Promises.{ReachedSessionsGoOn, SessionsAreTheSame, SessionsGoOn, SessionsKeepReached, SessionsKeepSavable};

/// The law that events make a state that can be saved of such a state: lines that are typed, commands
/// and definitions among them, steps and interrupts.
pub fn sessions_keep_savable()
    ensures { SessionsKeepSavable }
{
    // Nothing is done: the law is of the definitions.
}

/// The law that a session leads from a state to which a machine comes to such states alone.
pub fn sessions_keep_reached()
    ensures { SessionsKeepReached }
{}

/// The law that a new machine comes by events to states alone that are the same when they are saved
/// and loaded again, and whose parts keep to the rules of a workspace file.
pub fn sessions_are_the_same()
    ensures { SessionsAreTheSame }
{}

/// The law that a session which is saved and loaded goes on as it would have without, from each state that can
/// be saved, and so wherever a machine came to: whatever lines are typed, steps made and interrupts sent, its
/// states are the same, and what is written.
pub fn sessions_go_on()
    ensures savable { SessionsGoOn }
    ensures reached { ReachedSessionsGoOn }
{}
