// Laws of functions that move elements.
ghost use Rattle.apl_structure_laws.specs.Assignments.{LastStands, ReadsBack};
ghost use Rattle.apl_structure_laws.specs.Catenations.{DropsFirst, Rejoins, TakesFirst};
ghost use Rattle.apl_structure_laws.specs.Digits.{DecodesBack, IsTheirResidue};
ghost use Rattle.apl_structure_laws.specs.Lines.{AreWorked};
ghost use Rattle.apl_structure_laws.specs.Masks.{CompressesBack};
ghost use Rattle.apl_structure_laws.specs.Rotations.{RotatesBack};

/// The law that an array rotated by numbers, and then by their opposites, is the array, along each axis and for one
/// number as for one for each line.
pub fn rotations_undo_each_other()
    ensures { RotatesBack }
{}

/// The law that taking as much as A has from A,B gives A, and dropping as much gives B, along each axis, where both
/// are of one rank and of one type.
pub fn catenation_keeps_both()
    ensures first { TakesFirst }
    ensures second { DropsFirst }
{}

/// The law that the first elements along an axis, catenated with those that are left without them, are the array.
pub fn take_and_drop_rejoin()
    ensures { Rejoins }
{}

/// The law that A⊥A⊤B is (×/A)|B, for a vector A of positive bases whose product fits 64 bits.
pub fn decoding_undoes_encoding()
    ensures value { DecodesBack }
    ensures residue { IsTheirResidue }
{}

/// The law that an array expanded by a mask, and then compressed by the same one, is the array, along each axis, where
/// the mask has a 1 for each place of the axis.
pub fn compression_undoes_expansion()
    ensures { CompressesBack }
{}

/// The law that after V[I]←B the value of V[I] is B, reshaped to what the slots pick, where no slot picks a place
/// twice; and whatever they pick, at each index list it is the element that was the last to be written there.
pub fn indexing_reads_what_was_assigned()
    ensures last { LastStands }
    ensures once { ReadsBack }
{}

/// Lines in which the laws are seen at work.
pub fn worked_lines()
    ensures { AreWorked }
{}
