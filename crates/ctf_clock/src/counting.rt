//! Numbers that are kept in so many bits and start again at 0 after the largest.

ghost use Rattle.std.specs.Prelude.{◌≡◌, ◌<◌, ◌^◌};
ghost use Rattle.ctf_clock.specs.Counting as counting;

use ctf_class::Width;

/// How many steps it takes upward from the low `width` bits of one number to those of another, where 0
/// comes after the largest.
pub fn steps_up(width: Width, from: u64, to: u64) -> u64
    ensures value { result ≡ counting.steps_up width from to }
    ensures bound { result < 2 ^ width }
{
    to.wrapping_sub(from) & (u64::MAX >> (64 - width.bits()))
}

/// How many event records were discarded between two packets with these counts, of `width` bits each;
/// `None` where the counts are the same.
pub fn discarded_between(width: Width, before: u64, now: u64) -> Option<u64>
    ensures { result ≡ counting.discarded_between width before now }
{
    let steps = steps_up(width, before, now);
    if steps == 0 {
        return None;
    }
    Some(steps)
}

/// How many packets were lost between two with these sequence numbers, of `width` bits each; `None`
/// where none was, and where the number went back, that is more than half of all numbers on: so a jump
/// forward of more than half gives `None` too.
pub fn lost_between(width: Width, before: u64, now: u64) -> Option<u64>
    ensures { result ≡ counting.lost_between width before now }
{
    let steps = steps_up(width, before, now);
    let half = 1 << (width.bits() - 1);
    if steps < 2 || steps > half {
        return None;
    }
    Some(steps - 1)
}
