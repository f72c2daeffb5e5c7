// Laws of held sessions.
ghost use Rattle.apl_kept.specs.Promises.{OutputMayBeTaken, SlicedLinesAreOne, SlicesAreOne};

/// The law that steps in two slices are all of them at once.
pub fn slices_are_one()
    ensures { SlicesAreOne }
{
    // Nothing is done: the law is of the definitions.
}

/// The law that a line which is typed, and whose steps are made in any slices, comes to where [`apl_session::Session::drive`] leads by the
/// line and all steps.
pub fn sliced_lines_are_one()
    ensures { SlicedLinesAreOne }
{}

/// The law that output which is taken between two calls changes nothing of what follows: not the states, and not what is written.
pub fn output_may_be_taken()
    ensures { OutputMayBeTaken }
{}
