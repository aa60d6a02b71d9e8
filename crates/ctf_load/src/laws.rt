//! What holds of all metadata. Each function does nothing; what it ensures is a law.

ghost use Rattle.ctf_load.specs.Laws.{ClassOrFault};

/// Metadata denotes a trace class, or has a fault, which is not out of memory.
pub fn class_or_fault()
    ensures { ClassOrFault }
{}
