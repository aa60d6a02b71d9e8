//! The bits of numbers.

ghost use Rattle.std.specs.Prelude.{◌≡◌, ◌<◌};
ghost use Rattle.ctf_format.specs.Numbers.{pattern};

use ctf_class::Width;

/// The bits of a number in two's complement of a size, as an unsigned number.
#[tactic(auto, using(crate::proofs::PatternLemmas::pattern_upward, crate::proofs::PatternLemmas::pattern_downward))]
pub fn pattern(size: Width, number: i128) -> u64
    ensures value { result ≡ pattern size number }
{
    let mask = (1u128 << size.bits()) - 1;
    if number >= 0 {
        (number.unsigned_abs() & mask) as u64
    } else {
        (mask - ((number.unsigned_abs() - 1) & mask)) as u64
    }
}
