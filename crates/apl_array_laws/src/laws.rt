// Laws of arrays.
ghost use Rattle.apl_array_laws.specs.IndexLists.{HasIndexLists, OneOrder, StandOnce, TestsWithin};
ghost use Rattle.apl_array_laws.specs.Grades.{Falls, GradesDown, GradesUp, HaveOneGrade, Rises};
ghost use Rattle.apl_array_laws.specs.FiniteMaps.{AreEqual, HaveElements, HaveOneType, TextsAreArrays, NumbersAreArrays};

/// The law that the index lists of a shape are exactly those that have an index for each axis, below the axis's
/// length, each once, in lexicographic order, and that no other list is all these in that order.
pub fn index_lists()
    ensures within { TestsWithin }
    ensures listed { HasIndexLists }
    ensures once { StandOnce }
    ensures one { OneOrder }
{
    // Nothing is done: the law is of the definitions.
}

/// The law that an array is a shape, a type and a finite map that has just the index lists within the shape: arrays
/// that agree in these are equal, and each such map within the limits, of numbers that fit 64 bits or of characters
/// of the set, is some array's.
pub fn arrays_are_finite_maps()
    ensures domain { HaveElements }
    ensures typed { HaveOneType }
    ensures equal { AreEqual }
    ensures numbers { NumbersAreArrays }
    ensures characters { TextsAreArrays }
{}

/// The law that a grade is the list of the places of a vector's items, all of them and each once, sorted by item,
/// rising or falling, and then by place, and that there is one such list.
pub fn grades_sort_places()
    ensures up { GradesUp }
    ensures down { GradesDown }
    ensures one_up { HaveOneGrade Rises }
    ensures one_down { HaveOneGrade Falls }
{}
