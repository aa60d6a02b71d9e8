//! The clock after a scope, and the number that it names.

ghost use Rattle.std.specs.Prelude.{◌≡◌};
ghost use Rattle.std.specs.Int.{w64, cast_unsigned};
ghost use Rattle.ctf_clock.specs.Clock.{advanced_by};
ghost use Rattle.ctf_decode.specs.Views.{form, val};
ghost use Rattle.ctf_packet.specs.Moved as moved;
ghost use Rattle.ctf_packet.specs.Telling.{Moves, KeepsLast, integer_moves, value_moves, member_moves, element_moves, option_moves, choice_moves, value_ids, member_ids, element_ids, option_ids, choice_ids};

use ctf_class::{Class, FrontClass, Integer, Kind, Member, Width};
use ctf_clock::{Moment, Timeline};
use ctf_decode::{Value, choice_in, elements_in, members_in, named_id};

/// What was read of a value: the last number named `id`, and the clock.
#[derive(Clone, Copy)]
pub(crate) struct IdAndClock {
    pub(crate) id: Option<i128>,
    pub(crate) clock: Moment,
}

/// The moment that is reached where the integers of the value of a packet's context that set the clock do so, in the
/// order in which they were decoded. `None` exactly where one of them is refused.
pub fn moment_after(
    timeline: &Timeline,
    class: &FrontClass,
    value: &Value,
    clock: Moment,
) -> Option<Moment>
    ensures { result ≡
        advanced_by timeline.now clock (moved.moved (form class.now) (val value.now)) }
{
    let mut told = IdAndClock { id: None, clock };
    if set_by_scope(timeline, class, value, &mut told) {
        Some(told.clock)
    } else {
        None
    }
}

/// Sets the clock by the integers of the value of a packet's context. Mostly it is a structure.
fn set_by_scope(
    timeline: &Timeline,
    class: &FrontClass,
    value: &Value,
    told: &mut IdAndClock,
) -> bool
    ensures { Moves timeline.now (value_moves class.now value.now) told.old result told.new }
{
    let whole = class.class();
    if let Kind::Structure { .. } = &whole.kind {
        return set_by_members(timeline, class.clock_members(), members_in(value), told);
    }
    tell(timeline, whole, value, told)
}

/// Sets the clock by the integers of members, of which no `id` is asked for.
#[inline(always)]
fn set_by_members(
    timeline: &Timeline,
    members: &[Member],
    values: &[Value],
    told: &mut IdAndClock,
) -> bool
    ensures { Moves timeline.now (member_moves members.now values.now) told.old result told.new }
{
    for (i, member) in members.iter().enumerate() {
        if i >= values.len() {
            return true;
        }
        if !set_by_member(timeline, &member.class, &values[i], told) {
            return false;
        }
    }
    true
}

/// Sets the clock by the integers of one member. Mostly it is an integer that does not set it.
#[inline(always)]
fn set_by_member(timeline: &Timeline, class: &Class, value: &Value, told: &mut IdAndClock) -> bool
    ensures { Moves timeline.now (value_moves class.now value.now) told.old result told.new }
{
    if let Kind::Integer(integer) = &class.kind {
        return set_by(timeline, integer, value, told);
    }
    tell(timeline, class, value, told)
}

/// Sets the clock by the integers of a value that set it, in the order in which they were decoded, and keeps the last
/// number of a structure member named `id`, if there is one. It answers whether none of these integers was refused.
///
/// Few classes are told apart at once, here and in a structure: comparisons are foreseen better than a table of jumps.
#[cycle(told)]
#[inline(never)]
fn tell(timeline: &Timeline, class: &Class, value: &Value, told: &mut IdAndClock) -> bool
    ensures clock { Moves timeline.now (value_moves class.now value.now) told.old result told.new }
    ensures id { KeepsLast (value_ids class.now value.now) told.old result told.new }
{
    if let Kind::Structure { members } = &class.kind {
        return tell_members(timeline, members.as_slice(), members_in(value), told);
    }
    if let Kind::Integer(integer) = &class.kind {
        return set_by(timeline, integer, value, told);
    }
    tell_any(timeline, class, value, told)
}

/// Sets the clock by the integers of a scope, and keeps its last `id`. Mostly it is a structure, which takes no call.
#[inline(always)]
pub(crate) fn tell_scope(
    timeline: &Timeline,
    class: &Class,
    value: &Value,
    told: &mut IdAndClock,
) -> bool
    ensures clock { Moves timeline.now (value_moves class.now value.now) told.old result told.new }
    ensures id { KeepsLast (value_ids class.now value.now) told.old result told.new }
{
    if let Kind::Structure { members } = &class.kind {
        return tell_members(timeline, members.as_slice(), members_in(value), told);
    }
    tell(timeline, class, value, told)
}

/// Sets the clock by the integers of a value that is seldom a structure or an integer, and keeps its last `id`.
#[cycle(told)]
#[inline(never)]
fn tell_any(timeline: &Timeline, class: &Class, value: &Value, told: &mut IdAndClock) -> bool
    ensures clock { Moves timeline.now (value_moves class.now value.now) told.old result told.new }
    ensures id { KeepsLast (value_ids class.now value.now) told.old result told.new }
{
    match &class.kind {
        Kind::Integer(integer) => set_by(timeline, integer, value, told),
        Kind::Structure { members } => {
            tell_members(timeline, members.as_slice(), members_in(value), told)
        }
        Kind::Variant {
            tag,
            choices,
            options,
        } => tell_option(timeline, options.as_slice(), value, told),
        Kind::Array { length, element } => {
            tell_elements(timeline, element.get(), elements_in(value), told)
        }
        Kind::Enumeration { container, labels } => true,
        Kind::String => true,
        Kind::Text { length } => true,
    }
}

/// Sets the clock by the integers of members, and keeps their last `id`.
#[cycle(told)]
#[inline(always)]
fn tell_members(
    timeline: &Timeline,
    members: &[Member],
    values: &[Value],
    told: &mut IdAndClock,
) -> bool
    ensures clock { Moves timeline.now (member_moves members.now values.now) told.old result
        told.new }
    ensures id { KeepsLast (member_ids members.now values.now) told.old result told.new }
{
    for (i, member) in members.iter().enumerate() {
        if i >= values.len() {
            return true;
        }
        let value = &values[i];
        named_id(member, value, &mut told.id);
        if !tell_member(timeline, &member.class, value, told) {
            return false;
        }
    }
    true
}

/// Sets the clock by the integers of one member, and keeps its last `id`. A variant goes to its option at once.
#[cycle(told)]
#[inline(always)]
fn tell_member(timeline: &Timeline, class: &Class, value: &Value, told: &mut IdAndClock) -> bool
    ensures clock { Moves timeline.now (value_moves class.now value.now) told.old result told.new }
    ensures id { KeepsLast (value_ids class.now value.now) told.old result told.new }
{
    if let Kind::Integer(integer) = &class.kind {
        return set_by(timeline, integer, value, told);
    }
    if let Kind::Enumeration { container, labels } = &class.kind {
        return true;
    }
    if let Kind::Variant {
        tag,
        choices,
        options,
    } = &class.kind
    {
        return tell_option(timeline, options.as_slice(), value, told);
    }
    tell(timeline, class, value, told)
}

/// Sets the clock by the integers of elements, and keeps their last `id`.
#[cycle(told)]
fn tell_elements(
    timeline: &Timeline,
    element: &Class,
    values: &[Value],
    told: &mut IdAndClock,
) -> bool
    ensures clock { Moves timeline.now (element_moves element.now values.now) told.old result
        told.new }
    ensures id { KeepsLast (element_ids element.now values.now) told.old result told.new }
{
    for value in values {
        if !tell(timeline, element, value, told) {
            return false;
        }
    }
    true
}

/// Sets the clock by the integers of the option that was chosen, and keeps its last `id`.
#[cycle(told)]
#[inline(always)]
fn tell_option(
    timeline: &Timeline,
    options: &[Member],
    value: &Value,
    told: &mut IdAndClock,
) -> bool
    ensures clock { Moves timeline.now (choice_moves options.now value.now) told.old result
        told.new }
    ensures id { KeepsLast (choice_ids options.now value.now) told.old result told.new }
{
    match choice_in(value) {
        None => true,
        Some((i, inner)) => tell_chosen(timeline, options, i, inner, told),
    }
}

/// Sets the clock by the integers of the value of option i, and keeps its last `id`.
#[cycle(told)]
#[inline(always)]
fn tell_chosen(
    timeline: &Timeline,
    options: &[Member],
    i: usize,
    inner: &Value,
    told: &mut IdAndClock,
) -> bool
    ensures clock { Moves timeline.now (option_moves options.now i inner.now) told.old result
        told.new }
    ensures id { KeepsLast (option_ids options.now i inner.now) told.old result told.new }
{
    if i >= options.len() {
        return true;
    }
    tell(timeline, &options[i].class, inner, told)
}

/// Sets the clock by an integer, if it is one that sets it. It answers whether it was not refused.
#[inline(always)]
fn set_by(timeline: &Timeline, integer: &Integer, value: &Value, told: &mut IdAndClock) -> bool
    ensures clock { Moves timeline.now (integer_moves integer.now value.now) told.old result
        told.new }
    ensures id { told.new.id ≡ told.old.id }
{
    // Mostly it is not, and then the clock is not copied.
    if !integer.is_moving {
        return true;
    }
    match moved_by_integer(timeline, integer, value, told.clock) {
        Some(next) => {
            told.clock = next;
            true
        }
        None => false,
    }
}

/// The moment that is reached where an integer of this value sets the clock, if it is one that sets it. `None` exactly
/// where it is refused.
#[inline(always)]
fn moved_by_integer(
    timeline: &Timeline,
    integer: &Integer,
    value: &Value,
    clock: Moment,
) -> Option<Moment>
    ensures { result ≡ advanced_by timeline.now clock (moved.moved_in integer.now (val value.now)) }
{
    if !integer.is_moving {
        return Some(clock);
    }
    if integer.is_signed {
        moved_by_signed(timeline, integer.size, value, clock)
    } else {
        moved_by_unsigned(timeline, integer.size, value, clock)
    }
}

#[inline(always)]
fn moved_by_unsigned(
    timeline: &Timeline,
    width: Width,
    value: &Value,
    clock: Moment,
) -> Option<Moment>
    ensures { result ≡ advanced_by timeline.now clock (moved.unsigned_pair width (val value.now)) }
{
    if let Value::Unsigned(number) = value {
        return timeline.advance(clock, width, *number);
    }
    Some(clock)
}

fn moved_by_signed(
    timeline: &Timeline,
    width: Width,
    value: &Value,
    clock: Moment,
) -> Option<Moment>
    ensures { result ≡ advanced_by timeline.now clock (moved.signed_pair width (val value.now)) }
{
    if let Value::Signed(number) = value {
        return timeline.advance(clock, width, bits_of(*number));
    }
    Some(clock)
}

/// The bits of a number in two's complement.
fn bits_of(number: i64) -> u64
    ensures { result ≡ cast_unsigned w64 number }
{
    number.cast_unsigned()
}
