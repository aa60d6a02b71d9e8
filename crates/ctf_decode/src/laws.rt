//! Laws of which value is at a place, and of the numbers in it.

ghost use Rattle.std.specs.Prelude.{◌≡◌};
ghost use Rattle.ctf_decode.specs.Laws.{OneStands, StandsInWhole, NeedsSoMuch, MovedAreHeld};
ghost use Rattle.ctf_decode.specs.declared.scopes.TheConstants.{MOST_VALUES};

/// Either a value is at a place or a fault is, never both, and nothing else is there.
pub fn one_stands()
    ensures { OneStands }
{}

/// A value that is in a beginning of a packet is in the whole packet.
pub fn stands_in_whole()
    ensures { StandsInWhole }
{}

/// A place that a beginning of a packet does not reach is reached by each packet with this beginning in
/// which a value is there.
pub fn needs_so_much()
    ensures { NeedsSoMuch }
{}

/// Each number by which a value sets the clock is one of so many bits as its integer has.
pub fn moved_are_held()
    ensures { MovedAreHeld }
{}

/// The limit of values as a number, 2^24: what contracts and definitions mean by its name.
pub fn most_values()
    ensures { MOST_VALUES ≡ 16777216 }
{}
