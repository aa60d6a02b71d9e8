//! Headers of event records that are read without values in scopes.

ghost use Rattle.std.specs.Prelude.{◌≡◌, ◌≤◌, None, Some, map, option_map, pos, IfSome};
ghost use Rattle.ctf_class.specs.HeaderPlans.{IsHeaderPlanOf, IsNear};
ghost use Rattle.ctf_class.specs.Records.{IsPlanOf, scopes_of};
ghost use Rattle.ctf_packet.specs.Classes.{event_form};
ghost use Rattle.ctf_packet.specs.Records as records;
ghost use Rattle.ctf_packet.specs.Views.{PlansRecords};
ghost use Rattle.ctf_record_text.specs.Headers.{TellsAt, TellsPlanned};

use crate::planned_header::{HeaderRead, read_other, read_usual};
use ctf_class::{HeaderPlan, PlannedEvent, StreamClass};
use ctf_clock::{Moment, Timeline};
use ctf_decode::MOST_VALUES;
use ctf_format::Content;
use ctf_packet::{Head, RecordPlace};

/// Which headers of event records are asked for (CTF 1.8.3, section 6.1).
#[derive(Clone, Copy)]
pub enum Headers {
    /// Those of the usual integers of their plan, with an `id`, in a packet with a clock.
    Usual,
    /// All others that have a plan, or no bits.
    Unusual,
}

/// A header that was read, and how many values it has.
#[derive(Clone, Copy)]
pub(crate) struct ToldHead<'a> {
    pub(crate) head: Head<'a>,
    pub(crate) spent: u64,
}

/// The header of the event record at a place (CTF 1.8.3, section 6.1), by its plan, if it has bits. `None` where it is
/// not one of those that are asked for, where it has bits and no plan, and where it has a fault.
#[inline(always)]
pub(crate) fn told_head<'a>(at: &RecordPlace<'_, 'a>, headers: Headers) -> Option<ToldHead<'a>>
    ensures tells { IfSome result (TellsAt at.now) }
    ensures plan { IfSome result (λ t. PlansRecords at.now.packet.now.stream.now t.head) }
    ensures within { IfSome result (λ t. t.head.end ≤ at.now.packet.now.content) }
    ensures few { IfSome result (λ t. t.spent ≤ MOST_VALUES) }
{
    match headers {
        Headers::Usual => told_usual(at),
        Headers::Unusual => told_unusual(at),
    }
}

/// The header of the event record at a place, if it is a usual one.
#[inline(always)]
fn told_usual<'a>(at: &RecordPlace<'_, 'a>) -> Option<ToldHead<'a>>
    ensures tells { IfSome result (TellsAt at.now) }
    ensures plan { IfSome result (λ t. PlansRecords at.now.packet.now.stream.now t.head) }
    ensures within { IfSome result (λ t. t.head.end ≤ at.now.packet.now.content) }
    ensures few { IfSome result (λ t. t.spent ≤ MOST_VALUES) }
{
    let packet = at.packet;
    let plan = packet.stream.header_plan()?;
    let timeline = packet.timeline.as_ref()?;
    if !has_id(plan) {
        return None;
    }
    let content = Content {
        bytes: at.bytes,
        end: packet.content,
    };
    let to = read_usual(Some(timeline), plan, &content, at.clock?, at.place)?;
    let planned = packet.stream.planned_event(to.id?)?;
    Some(head_of(planned, to, Some(to.clock)))
}

/// The header of the event record at a place, if it is no usual one.
#[inline(always)]
fn told_unusual<'a>(at: &RecordPlace<'_, 'a>) -> Option<ToldHead<'a>>
    ensures tells { IfSome result (TellsAt at.now) }
    ensures plan { IfSome result (λ t. PlansRecords at.now.packet.now.stream.now t.head) }
    ensures within { IfSome result (λ t. t.head.end ≤ at.now.packet.now.content) }
    ensures few { IfSome result (λ t. t.spent ≤ MOST_VALUES) }
{
    if at.packet.stream.event_header().is_none() {
        return told_bare(at);
    }
    let plan = at.packet.stream.header_plan()?;
    match &at.packet.timeline {
        None => told_untimed(at, plan),
        Some(timeline) => told_timed(at, plan, timeline),
    }
}

/// The header of the event record at a place in a packet with a clock.
#[inline(always)]
fn told_timed<'a>(
    at: &RecordPlace<'_, 'a>,
    plan: &HeaderPlan,
    timeline: &Timeline,
) -> Option<ToldHead<'a>>
    requires plan { IsHeaderPlanOf at.now.packet.now.stream.now.event_header (Some plan.now) }
    requires timeline { at.now.packet.now.timeline ≡ Some timeline.now }
    ensures tells { IfSome result (TellsAt at.now) }
    ensures plan { IfSome result (λ t. PlansRecords at.now.packet.now.stream.now t.head) }
    ensures within { IfSome result (λ t. t.head.end ≤ at.now.packet.now.content) }
    ensures few { IfSome result (λ t. t.spent ≤ MOST_VALUES) }
{
    let to = read_unusual(at, plan, timeline, at.clock?)?;
    let planned = planned_by(at.packet.stream, to.id)?;
    Some(head_of(planned, to, Some(to.clock)))
}

/// The header of the event record at a place in a packet without a clock.
#[inline(always)]
fn told_untimed<'a>(at: &RecordPlace<'_, 'a>, plan: &HeaderPlan) -> Option<ToldHead<'a>>
    requires plan { IsHeaderPlanOf at.now.packet.now.stream.now.event_header (Some plan.now) }
    requires timeline { at.now.packet.now.timeline ≡ None }
    ensures tells { IfSome result (TellsAt at.now) }
    ensures plan { IfSome result (λ t. PlansRecords at.now.packet.now.stream.now t.head) }
    ensures within { IfSome result (λ t. t.head.end ≤ at.now.packet.now.content) }
    ensures few { IfSome result (λ t. t.spent ≤ MOST_VALUES) }
{
    let to = read_untimed(at, plan)?;
    let planned = planned_by(at.packet.stream, to.id)?;
    Some(head_of(planned, to, None))
}

/// Reads the header of the event record at a place in a packet with a clock, which came so far, if it is no usual one.
#[inline(always)]
fn read_unusual(
    at: &RecordPlace<'_, '_>,
    plan: &HeaderPlan,
    timeline: &Timeline,
    clock: Moment,
) -> Option<HeaderRead>
    requires near { IsNear plan.now }
    ensures tells { IfSome result (λ to. TellsPlanned (Some timeline.now) plan.now
        at.now.bytes.now at.now.packet.now.content clock at.now.place to) }
    ensures within { IfSome result (λ to. to.place ≤ at.now.packet.now.content) }
    ensures few { IfSome result (λ to. to.values ≤ MOST_VALUES) }
{
    let content = Content {
        bytes: at.bytes,
        end: at.packet.content,
    };
    if has_id(plan) {
        return read_other(Some(timeline), plan, &content, clock, at.place);
    }
    read_usual(Some(timeline), plan, &content, clock, at.place)
}

/// Reads the header of the event record at a place in a packet without a clock.
#[inline(always)]
fn read_untimed(at: &RecordPlace<'_, '_>, plan: &HeaderPlan) -> Option<HeaderRead>
    requires near { IsNear plan.now }
    ensures tells { IfSome result (λ to. TellsPlanned None plan.now at.now.bytes.now
        at.now.packet.now.content (record { cycles = 0; time = pos 0 }) at.now.place to) }
    ensures within { IfSome result (λ to. to.place ≤ at.now.packet.now.content) }
    ensures few { IfSome result (λ to. to.values ≤ MOST_VALUES) }
{
    let content = Content {
        bytes: at.bytes,
        end: at.packet.content,
    };
    let start = Moment { cycles: 0, time: 0 };
    if let Some(to) = read_usual(None, plan, &content, start, at.place) {
        return Some(to);
    }
    read_other(None, plan, &content, start, at.place)
}

/// Whether usual headers of a plan have a class number.
#[inline(always)]
fn has_id(plan: &HeaderPlan) -> bool {
    plan.tag.is_some() || plan.usual.id.is_some()
}

/// The event class that a header names, with the plan of its records.
#[inline(always)]
fn planned_by(stream: &StreamClass, id: Option<u64>) -> Option<PlannedEvent<'_>>
    ensures event { IfSome result
        (λ p. records.event_named (map (event_form stream.now) stream.now.events)
        (option_map pos id) ≡ Some (event_form stream.now p.event.now)) }
    ensures plan { IfSome result
        (λ p. IsPlanOf (scopes_of stream.now.event_context p.event.now.context p.event.now.fields)
        p.plan.now) }
{
    match id {
        Some(id) => stream.planned_event(id),
        None => stream.planned_only(),
    }
}

/// The header that was read, of an event class, with the clock after it.
#[inline(always)]
fn head_of<'a>(planned: PlannedEvent<'a>, to: HeaderRead, clock: Option<Moment>) -> ToldHead<'a>
    ensures event { result.head.event ≡ planned.entry.event }
    ensures plan { result.head.plan ≡ planned.entry.plan }
    ensures clock { result.head.clock ≡ clock }
    ensures end { result.head.end ≡ to.place }
    ensures spent { result.spent ≡ to.values }
{
    ToldHead {
        head: Head {
            event: planned.event,
            plan: planned.plan,
            clock,
            end: to.place,
        },
        spent: to.values,
    }
}

/// The header of an event record of a stream whose event records have none: it is of the only event class.
#[inline(always)]
fn told_bare<'a>(at: &RecordPlace<'_, 'a>) -> Option<ToldHead<'a>>
    requires bare { at.now.packet.now.stream.now.event_header ≡ None }
    ensures tells { IfSome result (TellsAt at.now) }
    ensures plan { IfSome result (λ t. PlansRecords at.now.packet.now.stream.now t.head) }
    ensures within { IfSome result (λ t. t.head.end ≤ at.now.packet.now.content) }
    ensures few { IfSome result (λ t. t.spent ≤ MOST_VALUES) }
{
    let planned = planned_by(at.packet.stream, None)?;
    let head = Head {
        event: planned.event,
        plan: planned.plan,
        clock: at.packet.timeline.and(at.clock),
        end: at.place,
    };
    Some(ToldHead { head, spent: 0 })
}
