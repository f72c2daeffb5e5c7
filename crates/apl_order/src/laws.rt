// Laws of the order of contexts.
ghost use Rattle.apl_order.specs.Order.{InterruptsKeepOrder, StatementsKeepOrder, StepsKeepOrder};
ghost use Rattle.apl_order.specs.Kept.{ClearIsKept, DefinitionsKeep, ErasuresKeep, InterruptsKeep, StatementsKeep, StepsKeep};

/// The law that a step keeps the contexts in order.
pub fn steps_keep_order()
    ensures { StepsKeepOrder }
{
    // Nothing is done: the law is of the definitions.
}

/// The law that an interrupt keeps the contexts in order.
pub fn interrupts_keep_order()
    ensures { InterruptsKeepOrder }
{}

/// The law that a statement which begins in an idle state keeps the contexts in order.
pub fn statements_keep_order()
    ensures { StatementsKeepOrder }
{}

/// The law that a clear workspace is a state which a machine can have.
pub fn clear_is_kept()
    ensures { ClearIsKept }
{}

/// The law that a step makes such a state of such a state.
pub fn steps_keep()
    ensures { StepsKeep }
{}

/// The law that an interrupt does.
pub fn interrupts_keep()
    ensures { InterruptsKeep }
{}

/// The law that a statement does which begins in an idle state.
pub fn statements_keep()
    ensures { StatementsKeep }
{}

/// The law that a definition does.
pub fn definitions_keep()
    ensures { DefinitionsKeep }
{}

/// The law that erasing a global object does.
pub fn erasures_keep()
    ensures { ErasuresKeep }
{}
