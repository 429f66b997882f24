//! The meaning of the answers of the comparisons, and of what is told of stack maps that are refused.
ghost use Rattle.frames.specs.Differences.{DifferencesAreNo, MissingIsFound};
ghost use Rattle.frames.specs.RefusedEntries.{RefusedIsReason, FaultyIsFault};
ghost use Rattle.frames.specs.Packing.{EqualSlotsAreEqualTypes, EqualSlotsAreYes};
ghost use Rattle.frames.specs.Meaning.{ClassesHaveOneAnswer, TypesMean, FramesHaveOneAnswer, FramesToThemselves};

/// A comparison of two classes has one answer, by the chain of superclasses.
pub fn classes_have_one_answer()
    ensures { ClassesHaveOneAnswer }
{}

/// A comparison of two types is `Yes` exactly where the first is assignable to the second, and `Missing` exactly where
/// the comparison of their classes is.
pub fn types_mean()
    ensures { TypesMean }
{}

/// A comparison of two frames has one answer, by those of their slots.
pub fn frames_have_one_answer()
    ensures { FramesHaveOneAnswer }
{}

/// A frame differs from another of as many locals exactly where the comparison of the two is `No`.
pub fn differences_are_no()
    ensures { DifferencesAreNo }
{}

/// The comparison of a frame with another of as many locals is `Missing` exactly where a first place asks for a class
/// that is missing, and the class is the one for which this place asks.
pub fn missing_is_found()
    ensures { MissingIsFound }
{}

/// An entry of a stack map is refused exactly where the map declares no frames, and the reason against it is the map's.
pub fn refused_is_reason()
    ensures { RefusedIsReason }
{}

/// A body that has the number of its entries whole has a fault in front of any bytes left over exactly where
/// [`faulty_entry`](crate::faulty_entry) tells an entry.
pub fn faulty_is_fault()
    ensures { FaultyIsFault }
{}

/// Each frame is assignable to itself.
pub fn frames_to_themselves()
    ensures { FramesToThemselves }
{}

/// Types of equal slots are equal, that of absent classes aside, and so each stands for the other.
pub fn equal_slots_are_equal_types()
    ensures types { EqualSlotsAreEqualTypes }
    ensures answers { EqualSlotsAreYes }
{}
