//! Laws of steps.
ghost use Rattle.apl_machine.specs.Counts.{StepsAreCounted};

/// The law of how many steps are made: they are steps of a state that runs, they come to where all steps come to that were allowed, and
/// where they are fewer, nothing runs after them.
pub fn steps_are_counted()
    ensures { StepsAreCounted }
{
    // Nothing is done: the law is of the definitions.
}
