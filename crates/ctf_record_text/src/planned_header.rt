//! Headers of event records that are read by their plan.

ghost use Rattle.std.specs.Prelude.{◌≡◌, ◌+◌, ◌*◌, ◌/◌, ◌%◌, ◌^◌, ◌≤◌, length, IfSome, option_copied};
ghost use Rattle.std.specs.Int.{next_multiple_of};
ghost use Rattle.ctf_class.specs.HeaderPlans.{AreNear, IsNear, IsRead};
ghost use Rattle.ctf_class.specs.Integers.{bits_of};
ghost use Rattle.ctf_decode.specs.declared.scopes.TheConstants.{MOST_VALUES};
ghost use Rattle.ctf_record_text.specs.Headers.{TellsPlanned};
ghost use Rattle.ctf_record_text.specs.Planned as planned;
ghost use Rattle.ctf_record_text.specs.Planned.{ReadsIntegers};

use ctf_bits::{Order, uint_within};
use ctf_class::{HeaderIntegers, HeaderNumber, HeaderPlan, HeaderReading};
use ctf_clock::{Moment, Timeline};
use ctf_format::Content;

/// What is read of a header before its integers.
#[derive(Clone, Copy)]
pub(crate) struct HeaderBegin {
    /// The number of its tag, if it has one.
    pub(crate) tag: Option<u64>,
    pub(crate) clock: Moment,
    /// Where the structure of integers begins, in bits from the packet's first one.
    pub(crate) place: u64,
}

/// A header that was read.
#[derive(Clone, Copy)]
pub(crate) struct HeaderRead {
    /// The number of the event class, if the header has one.
    pub(crate) id: Option<u64>,
    pub(crate) clock: Moment,
    /// Where it ends, in bits from the packet's first one.
    pub(crate) place: u64,
    /// How many values it has.
    pub(crate) values: u64,
}

/// Reads a header of a plan's usual integers, at a place in bits from the packet's first one, where the clock came so
/// far. `None` where its tag chooses others, where it has a fault, and where fewer than eight bytes are after it.
#[inline(always)]
pub(crate) fn read_usual(
    timeline: Option<&Timeline>,
    plan: &HeaderPlan,
    packet: &Content<'_>,
    clock: Moment,
    place: u64,
) -> Option<HeaderRead>
    requires start { place ≤ packet.now.end }
    requires near { IsNear plan.now }
    ensures tells { let content = packet.now in
        IfSome result (λ to. TellsPlanned (option_copied timeline.entry) plan.now
        content.bytes.now content.end clock place to) }
    ensures within { IfSome result (λ to. to.place ≤ packet.now.end) }
    ensures few { IfSome result (λ to. to.values ≤ MOST_VALUES) }
{
    let begin = plan.align.up(place);
    let place = place_of(&plan.usual, packet, begin)?;
    let tag = match &plan.tag {
        None => None,
        Some(tag) => {
            let number = number_at(&tag.number, packet.bytes, begin);
            if number < tag.first || number > tag.last {
                return None;
            }
            Some(number)
        }
    };
    let from = HeaderBegin { tag, clock, place };
    read_integers(timeline, &plan.usual, packet, from)
}

/// Reads a header of a plan's other integers, at a place in bits from the packet's first one, where the clock came so
/// far. `None` where the plan has none, where its tag does not choose them, where it has a fault, and where fewer than
/// eight bytes are after it.
#[inline(always)]
pub(crate) fn read_other(
    timeline: Option<&Timeline>,
    plan: &HeaderPlan,
    packet: &Content<'_>,
    clock: Moment,
    place: u64,
) -> Option<HeaderRead>
    requires start { place ≤ packet.now.end }
    requires near { IsNear plan.now }
    ensures tells { let content = packet.now in
        IfSome result (λ to. TellsPlanned (option_copied timeline.entry) plan.now
        content.bytes.now content.end clock place to) }
    ensures within { IfSome result (λ to. to.place ≤ packet.now.end) }
    ensures few { IfSome result (λ to. to.values ≤ MOST_VALUES) }
{
    let tag = plan.tag.as_ref()?;
    let other = plan.other.as_ref()?;
    let begin = plan.align.up(place);
    let place = place_of(other, packet, begin)?;
    let number = number_at(&tag.number, packet.bytes, begin);
    if number <= tag.last || number - tag.last > 1 {
        return None;
    }
    let from = HeaderBegin {
        tag: Some(number),
        clock,
        place,
    };
    read_integers(timeline, other, packet, from)
}

/// Where the structure of integers begins in a header that begins there, both in bits from the packet's first one.
/// `None` where it does not end in the content, or fewer than eight bytes are after it.
#[inline(always)]
fn place_of(integers: &HeaderIntegers, packet: &Content<'_>, begin: u64) -> Option<u64>
    requires start { begin ≤ packet.now.end + 2 ^ 32 }
    requires near { AreNear integers.now }
    ensures is { IfSome result (λ place. place ≡
        next_multiple_of (begin + integers.now.skipped) integers.now.align) }
    ensures multiple { IfSome result (λ place. place % integers.now.align ≡ 0) }
    ensures after { IfSome result (λ place. begin + integers.now.skipped ≤ place) }
    ensures within { IfSome result (λ place. place + integers.now.span ≤ packet.now.end) }
    ensures held { IfSome result
        (λ place. (place + integers.now.span) / 8 + 8 ≤ length packet.now.bytes.now) }
{
    let from = begin + integers.skipped;
    if from > packet.end {
        return None;
    }
    let place = integers.align.up(from);
    let end = place + integers.span;
    // Mostly so many bits of the content are after it that the packet's bytes need no look.
    if end + 64 > packet.end && !packet.has_window_at(end) {
        return None;
    }
    Some(place)
}

/// Reads the integers of a header.
#[inline(always)]
fn read_integers(
    timeline: Option<&Timeline>,
    integers: &HeaderIntegers,
    packet: &Content<'_>,
    from: HeaderBegin,
) -> Option<HeaderRead>
    requires near { AreNear integers.now }
    requires within { from.place + integers.now.span ≤ packet.now.end }
    requires held { (from.place + integers.now.span) / 8 + 8 ≤ length packet.now.bytes.now }
    ensures reads { IfSome result
        (ReadsIntegers (option_copied timeline.entry) integers.now packet.now.bytes.now from) }
{
    let id = match &integers.id {
        Some(number) => Some(number_at(number, packet.bytes, from.place)),
        None => from.tag,
    };
    Some(HeaderRead {
        id,
        clock: clock_after(timeline, integers, packet, from)?,
        place: from.place + integers.span,
        values: integers.values,
    })
}

/// The clock after the integers of a header. `None` where the one that sets it is refused.
#[inline(always)]
fn clock_after(
    timeline: Option<&Timeline>,
    integers: &HeaderIntegers,
    packet: &Content<'_>,
    from: HeaderBegin,
) -> Option<Moment>
    requires near { AreNear integers.now }
    requires within { from.place + integers.now.span ≤ packet.now.end }
    requires held { (from.place + integers.now.span) / 8 + 8 ≤ length packet.now.bytes.now }
    ensures { result ≡ planned.clock_after (option_copied timeline.entry) integers.now.stamp
        packet.now.bytes.now from.place from.clock }
{
    let Some(timeline) = timeline else {
        return Some(from.clock);
    };
    let Some(stamp) = &integers.stamp else {
        return Some(from.clock);
    };
    let number = number_at(stamp, packet.bytes, from.place);
    timeline.advance(from.clock, stamp.integer.size, number)
}

/// The number of an integer of a structure that begins at a place, in bits from the packet's first one. Mostly it is
/// short.
#[inline(always)]
fn number_at(number: &HeaderNumber, bytes: &[u8], begin: u64) -> u64
    requires held { (begin + number.now.distance) / 8 + 8 ≤ length bytes.now }
    requires near { begin + number.now.distance ≤ 2 ^ 62 }
    requires inside { begin + number.now.distance + bits_of number.now.integer ≤
        8 * length bytes.now }
    requires read { IsRead number.now }
    ensures { result ≡ planned.number_at bytes.now begin number.now }
{
    let place = begin + number.distance;
    match &number.reading {
        HeaderReading::Little(short) => short.number(bytes, place, Order::Le),
        HeaderReading::Big(short) => short.number(bytes, place, Order::Be),
        HeaderReading::Long => {
            let integer = &number.integer;
            uint_within(bytes, place, integer.size.bits(), integer.order)
        }
    }
}
