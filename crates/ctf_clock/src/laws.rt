//! What setting a clock means.

ghost use Rattle.ctf_clock.specs.Counting.{SumIsLeast};

/// The value that an integer sets is the least one that is not below the old value and has the integer's
/// bits.
pub fn least_from_is_least()
    ensures { SumIsLeast }
{}
