//! What the definitions of stamps and instants mean.

ghost use Rattle.ctf_timestamp.specs.Laws.{CivilTimesAreShown, FoldsGiveTheEarlier};

/// The text of a civil time, which is defined by its nanoseconds, shows the parts that jiff's civil time
/// with these nanoseconds has.
pub fn civil_times_are_shown()
    ensures { CivilTimesAreShown }
{}

/// In a fold the offset before the change of the clock, which counts, gives the earlier instant.
pub fn folds_give_the_earlier()
    ensures { FoldsGiveTheEarlier }
{}
