//! Laws of workspaces that are loaded and saved again.
ghost use Rattle.apl_workspace.specs.Promises.{LoadedIsSavedAsItWas, SavedIsSavedAgain};

/// The law that a file which is loaded is saved as version 2 with nothing else changed, and that what was
/// saved is saved again byte for byte.
pub fn files_stay_as_they_were()
    ensures loaded { LoadedIsSavedAsItWas }
    ensures again { SavedIsSavedAgain }
{
    // Nothing is done: the law is of the definitions.
}
