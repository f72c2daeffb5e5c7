//! The law of a machine's parts.
ghost use Rattle.apl_saving.specs.Readable.{KeptPartsAreReadable};

/// The law that the parts of a machine have a file: their lines have tokens.
pub fn kept_parts_are_readable()
    ensures { KeptPartsAreReadable }
{
    // Nothing is done: the law is of the definitions.
}
