//! What holds of the meaning of every text. Each function does nothing; what it ensures is a law.

ghost use Rattle.ctf_meaning.specs.Laws.{OneClass, NeverBoth, ClassOrFault, FaultsAreNamed, NamesReadEarlier, ClassesReadEarlier, FaultsReadEarlier, EachHasShape, KeepsMembers, DepthBounded};

/// A text denotes one trace class at the most.
pub fn one_class()
    ensures { OneClass }
{}

/// A text denotes no trace class where it has a fault that may be reported.
pub fn never_both()
    ensures { NeverBoth }
{}

/// A text denotes a trace class, or has a fault that may be reported.
pub fn class_or_fault()
    ensures { ClassOrFault }
{}

/// A fault that may be reported is one of a rule: `NoMemory` is none.
pub fn faults_are_named()
    ensures { FaultsAreNamed }
{}

/// What a name means at a part depends on what is before the part alone.
pub fn names_read_earlier()
    ensures { NamesReadEarlier }
{}

/// Which class is written in a part depends on what is before the part alone.
pub fn classes_read_earlier()
    ensures { ClassesReadEarlier }
{}

/// What is wrong with a part by itself depends on what is before the part alone.
pub fn faults_read_earlier()
    ensures { FaultsReadEarlier }
{}

/// Where there is no own fault, each class that is written is known.
pub fn each_has_shape()
    ensures { EachHasShape }
{}

/// Where there is no own fault, structures and variants have the members and options that are written.
pub fn keeps_members()
    ensures { KeepsMembers }
{}

/// Where there is no own fault, no class is deeper than 64.
pub fn depth_bounded()
    ensures { DepthBounded }
{}
