//! Laws of the merged list.

ghost use Rattle.ctf_merge.specs.Laws.{MergeGoesOn, MergeIsCut, MergeRises, NoneIsBefore};

/// The merged list begins with the first item, and goes on with the merged list of what is left; or it ends
/// with the fault that comes first.
pub fn merge_goes_on()
    ensures { MergeGoesOn }
{}

/// Where the times of no stream fall, those of the merged list don't.
pub fn merge_rises()
    ensures { MergeRises }
{}

/// Where times don't fall, no item is before the first one.
pub fn none_is_before()
    ensures { NoneIsBefore }
{}

/// The merged list is that of all items of all streams in their order, up to the cut, where the times of no
/// stream fall.
pub fn merge_is_cut()
    ensures { MergeIsCut }
{}
