// Laws of saving and loading.
ghost use Rattle.apl_savable.specs.Promises.{ClearIsSavable, DefinitionsKeepSavable, ErasuresKeepSavable, InterruptsKeepSavable, LoadedHasTheParts, LoadedIsSavable, PartsAreRuled, SavedIsTheSame, StatementsKeepSavable, StepsKeepSavable};
ghost use Rattle.apl_savable.specs.Reached.{ReachedIsSavable, ReachedIsTheSame};

/// The law that each idle state to which a machine comes is the same when it is saved and loaded again, and that its parts keep to the
/// rules of a workspace file.
pub fn reached_is_the_same()
    ensures { ReachedIsTheSame }
{
    // Nothing is done: the law is of the definitions.
}

/// The law that each state to which a machine comes can be saved.
pub fn reached_is_savable()
    ensures { ReachedIsSavable }
{}

/// The law that the parts of an idle state keep to the rules of a workspace file.
pub fn parts_are_ruled()
    ensures { PartsAreRuled }
{}

/// The law that a state which is saved and loaded again is the same state.
pub fn saved_is_the_same()
    ensures { SavedIsTheSame }
{}

/// The law that what is loaded can be saved.
pub fn loaded_is_savable()
    ensures { LoadedIsSavable }
{}

/// The law that what is loaded has just the parts that the file holds.
pub fn loaded_has_the_parts()
    ensures { LoadedHasTheParts }
{}

/// The law that a clear workspace can be saved.
pub fn clear_is_savable()
    ensures { ClearIsSavable }
{}

/// The law that a step makes a state that can be saved of such a state.
pub fn steps_keep_savable()
    ensures { StepsKeepSavable }
{}

/// The law that an interrupt does.
pub fn interrupts_keep_savable()
    ensures { InterruptsKeepSavable }
{}

/// The law that a statement does which begins in an idle state.
pub fn statements_keep_savable()
    ensures { StatementsKeepSavable }
{}

/// The law that a definition does.
pub fn definitions_keep_savable()
    ensures { DefinitionsKeepSavable }
{}

/// The law that erasing a global object does.
pub fn erasures_keep_savable()
    ensures { ErasuresKeepSavable }
{}
