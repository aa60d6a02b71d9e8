//! Laws of the classes that metadata denote. Each function does nothing; what it ensures is a law.

ghost use Rattle.class_laws.specs.Laws.{LengthsAndTagsAreFound, IntegersAreSized};

/// In the scopes that a reader decodes each length and each tag of a class is found, whatever its stream holds.
pub fn lengths_and_tags_are_found()
    ensures { LengthsAndTagsAreFound }
{}

/// Each integer of a class has 1 to 64 bits.
pub fn integers_are_sized()
    ensures { IntegersAreSized }
{}
