//! Where a number probably is among spans that are one after the other. These are guesses, of which contracts say only
//! that they are ranks.

ghost use Rattle.std.specs.Prelude.{◌<◌, IfSome};

/// The rank of the span that probably covers a number, of `count` spans one after the other. Mostly each is of one
/// number and few are missing between them, so that the distance from the first number is the rank. `None` where that
/// is twice as far as there are spans, or the number below the first one.
#[inline(always)]
pub fn rank_after(first: i128, number: i128, count: usize) -> Option<usize>
    requires { 0 < count }
    ensures { IfSome result (λ rank. rank < count) }
{
    let distance = usize::try_from(number.wrapping_sub(first)).ok()?;
    if distance / 2 >= count {
        return None;
    }
    Some(distance.min(count - 1))
}

/// The rank of the span that probably covers a number, by the distance from the last number. It is right where numbers
/// are missing only below the one that is looked for.
#[inline(always)]
pub fn rank_before(last: i128, number: i128, count: usize) -> usize
    requires { 0 < count }
    ensures { result < count }
{
    match usize::try_from(last.wrapping_sub(number)) {
        Ok(distance) => count - 1 - distance.min(count - 1),
        Err(_) => count - 1,
    }
}
