//! Laws of parts.
ghost use Rattle.apl_parts.specs.Promises.{WholePartsAreKept, WholePartsStandInOrder};

/// The law that the contexts of parts which are some of an idle machine stand in order.
pub fn whole_parts_stand_in_order()
    ensures { WholePartsStandInOrder }
{
    // Nothing is done: the law is of the definitions.
}

/// The law that the state of such parts is one that a machine can have.
pub fn whole_parts_are_kept()
    ensures { WholePartsAreKept }
{}
