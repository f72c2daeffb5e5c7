//! Laws of workspace files.
ghost use Rattle.apl_saved.specs.Promises.{HoldOneWorkspace, AreOneFile};

use apl_defn::definitions;

/// The law that a file holds one workspace that keeps to the rules.
pub fn one_workspace()
    ensures { HoldOneWorkspace }
{
    definitions();
}

/// The law that a workspace has one file of each version.
pub fn one_file_of()
    ensures { AreOneFile }
{
    // Nothing is done: the law is of the definitions.
}
