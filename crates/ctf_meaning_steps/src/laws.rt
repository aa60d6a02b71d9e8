//! That going through a text from its beginning gives what the text means. Each function does nothing;
//! what it ensures is a law.

ghost use Rattle.ctf_meaning_steps.specs.Laws.{WalkFindsScopes, WalkTellsOwn, LinkingGivesClass, LinkingTellsFault};

/// Where a text is gone through to its end, no declaration has an own fault, and the class of each scope
/// is found.
pub fn walk_finds_scopes()
    ensures { WalkFindsScopes }
{}

/// A fault that is reported on the way is an own fault of the first declaration that has one.
pub fn walk_tells_own()
    ensures { WalkTellsOwn }
{}

/// Where linking a shape gives a class, nothing in the shape fails to link, and the class is what the
/// shape is at its place.
pub fn linking_gives_class()
    ensures { LinkingGivesClass }
{}

/// A fault that linking reports is one of the shape's link faults, where no float is in the shape.
pub fn linking_tells_fault()
    ensures { LinkingTellsFault }
{}
