//! Event records.

ghost use Rattle.std.specs.Prelude.{◌≡◌, ◌<◌, ◌≤◌, map, option_map, IfOk, IfSome, OnOk};
ghost use Rattle.ctf_class.specs.Records.{IsPlanOf, scopes_of};
ghost use Rattle.ctf_clock.specs.declared.moment.Shift.{Shift};
ghost use Rattle.ctf_decode.specs.Known.{without_record};
ghost use Rattle.ctf_decode.specs.Views.{form};
ghost use Rattle.ctf_packet.specs.Classes.{event_form};
ghost use Rattle.ctf_packet.specs.Records as records;
ghost use Rattle.ctf_packet.specs.Places.{IsTimed, headed_at, record_there};
ghost use Rattle.ctf_packet.specs.Views.{values_of, packet_values, recorded_of, PlansRecords, PutsHead, PutsBody};
ghost use Rattle.ctf_packet.specs.Gives.{OrRefused};

use crate::fault::StreamFault;
use crate::record_place::RecordPlace;
use crate::scope::{ScopePlace, record_scope};
use crate::scratch::Scratch;
use crate::told::told_by;
use ctf_class::{EventClass, PlannedEvent, RecordPlan, Scope, StreamClass};
use ctf_clock::Moment;
use ctf_decode::{Scopes, Value};
use std::alloc::Global;

/// The header of an event record (CTF 1.8.3, section 6.1).
#[derive(Clone, Copy)]
pub struct Head<'a> {
    pub event: &'a EventClass,
    /// The plan of the event records of that class.
    pub plan: &'a RecordPlan,
    /// The clock after it.
    pub clock: Option<Moment>,
    /// Where it ends, in bits from the packet's first one.
    pub end: u64,
}

/// An event record.
#[derive(Clone, Copy)]
pub struct EventRecord<'a> {
    pub event: &'a EventClass,
    /// The clock after its header.
    pub clock: Option<Moment>,
    /// Where it ends, in bits from the packet's first one.
    pub end: u64,
}

/// The event class of the number that a header gives, or the only one (CTF 1.8.3, section 6.1), with the plan of its
/// records.
pub fn event_named(stream: &StreamClass, id: Option<i128>) -> Option<PlannedEvent<'_>>
    ensures event { option_map (λ p. event_form stream.now p.event.now) result ≡
        records.event_named (map (event_form stream.now) stream.now.events) id }
    ensures plan { IfSome result
        (λ p. IsPlanOf (scopes_of stream.now.event_context p.event.now.context p.event.now.fields)
        p.plan.now) }
{
    match id {
        None => stream.planned_only(),
        Some(id) => {
            if id < 0 {
                return None;
            }
            if id > i128::from(u64::MAX) {
                return None;
            }
            stream.planned_event(id as u64)
        }
    }
}

/// Where a scope of the event record at a place begins.
#[inline(always)]
fn scope_place<'p>(at: &RecordPlace<'p, '_>, scope: Scope, place: u64) -> ScopePlace<'p>
    requires { place ≤ at.now.packet.now.content }
    ensures scope { result.scope ≡ scope }
    ensures bytes { result.bytes.now ≡ at.now.bytes.now }
    ensures content { result.content ≡ at.now.packet.now.content }
    ensures place { result.place ≡ place }
{
    ScopePlace {
        scope,
        bytes: at.bytes,
        content: at.packet.content,
        place,
    }
}

/// Decodes the scopes after the header of the event record at a place, the contexts and the fields (CTF 1.8.3, section
/// 6.2), and gives the place where the last one ends, in bits from the packet's first one. Their values are in `scopes`
/// then, and the memory of `scratch` is used.
///
/// An error is the first fault of these scopes: F6, F8, F11, or `NoMemory`.
#[tactic(auto, unfolding(crate::specs::Records::bodied))]
pub fn put_body(
    alloc: Global,
    at: &RecordPlace<'_, '_>,
    head: &Head<'_>,
    scratch: &mut Scratch,
    scopes: &mut Scopes,
) -> Result<u64, StreamFault>
    requires start { head.now.end ≤ at.now.packet.now.content }
    ensures puts { let stream = at.now.packet.now.stream.now in let event = head.now.event.now in
        PutsBody (records.bodied (option_map form stream.event_context)
        (option_map form event.context) (form event.fields) at.now.bytes.now
        at.now.packet.now.content (values_of scopes.old) head.now.end scopes.old.spent)
        result scopes.new }
    ensures within { IfOk result (λ end. end ≤ at.now.packet.now.content) }
    ensures forward { IfOk result (λ end. head.now.end ≤ end) }
    ensures packet { OnOk result
        (packet_values (values_of scopes.new) ≡ packet_values (values_of scopes.old)) }
{
    let event = head.event;
    let Ok(i) = scratch.room_for(event.id) else {
        return Err(StreamFault::NoMemory);
    };
    let stream_context = at.packet.stream.event_context();
    let first = scope_place(at, Scope::StreamEventContext, head.end);
    let end = record_scope(
        alloc,
        stream_context,
        &first,
        &mut scratch.stream_context,
        scopes,
    )?;
    let event_context = event.context();
    let second = scope_place(at, Scope::EventContext, end);
    let body = &mut scratch.bodies[i];
    let end = record_scope(
        alloc,
        event_context,
        &second,
        &mut body.event_context,
        scopes,
    )?;
    let fields = event.fields();
    let third = scope_place(at, Scope::EventFields, end);
    record_scope(alloc, Some(fields), &third, &mut body.fields, scopes)
}

/// Decodes the header of the event record at a place into its scope, and gives what it says: the event class, the clock
/// after it, and where it ends.
#[tactic(auto, unfolding(crate::specs::Records::headed))]
fn put_head<'a>(
    alloc: Global,
    at: &RecordPlace<'_, 'a>,
    spare: &mut Value,
    scopes: &mut Scopes,
) -> Result<Head<'a>, StreamFault>
    requires spent { scopes.old.spent ≡ 0 }
    ensures puts { (shift : Shift) → IsTimed shift at.now.packet.now →
        PutsHead at.now.packet.now.stream.now (values_of scopes.old)
        (headed_at shift (values_of scopes.old) at.now) result scopes.new }
    ensures plan { IfOk result (PlansRecords at.now.packet.now.stream.now) }
    ensures within { IfOk result (λ head. head.end ≤ at.now.packet.now.content) }
    ensures forward { IfOk result (λ head. at.now.place ≤ head.end) }
    ensures packet { OnOk result
        (packet_values (values_of scopes.new) ≡ packet_values (values_of scopes.old)) }
{
    let packet = at.packet;
    let stream = packet.stream;
    let class = stream.event_header();
    let place = scope_place(at, Scope::EventHeader, at.place);
    let end = record_scope(alloc, class, &place, spare, scopes)?;
    let header = scopes.get(Scope::EventHeader);
    let told = told_by(packet.timeline.as_ref(), at.clock, class, header)?;
    let Some(named) = event_named(stream, told.id) else {
        return Err(StreamFault::UnknownEvent);
    };
    Ok(Head {
        event: named.event,
        plan: named.plan,
        clock: told.clock,
        end,
    })
}

/// Leaves the packet's values alone.
fn leave_record(scratch: &mut Scratch, scopes: &mut Scopes)
    ensures { scopes.new ≡ without_record scopes.old }
{
    scratch.take_back(scopes);
    scopes.leave_record();
}

/// The header of the event record at a place. The values of the packet's header and context are in `scopes`, and so is
/// that of the header then, but of no other scope of an event record. The memory of `scratch` is used.
///
/// An error is the first fault of the header: F6 to F9, F11, or `NoMemory`.
#[inline(always)]
pub fn next_head<'a>(
    alloc: Global,
    at: &RecordPlace<'_, 'a>,
    scratch: &mut Scratch,
    scopes: &mut Scopes,
) -> Result<Head<'a>, StreamFault>
    ensures puts { (shift : Shift) → IsTimed shift at.now.packet.now →
        PutsHead at.now.packet.now.stream.now (packet_values (values_of scopes.old))
        (headed_at shift (packet_values (values_of scopes.old)) at.now) result scopes.new }
    ensures plan { IfOk result (PlansRecords at.now.packet.now.stream.now) }
    ensures within { IfOk result (λ head. head.end ≤ at.now.packet.now.content) }
    ensures forward { IfOk result (λ head. at.now.place ≤ head.end) }
    ensures packet { OnOk result
        (packet_values (values_of scopes.new) ≡ packet_values (values_of scopes.old)) }
{
    leave_record(scratch, scopes);
    put_head(alloc, at, &mut scratch.header, scopes)
}

/// The event record at a place. The values of the packet's header and context are in `scopes`, and so are those of the
/// record then. The memory of `scratch` is used.
///
/// An error is the first fault of the record: F6 to F11, or `NoMemory`.
#[tactic(auto, unfolding(crate::specs::Records::record_at))]
pub fn next_record<'a>(
    alloc: Global,
    at: &RecordPlace<'_, 'a>,
    scratch: &mut Scratch,
    scopes: &mut Scopes,
) -> Result<EventRecord<'a>, StreamFault>
    ensures records { (shift : Shift) → IsTimed shift at.now.packet.now →
        OrRefused (recorded_of at.now.packet.now.stream.now (values_of scopes.new)) result
        (record_there shift (values_of scopes.old) at.now) }
    ensures within { IfOk result (λ r. r.end ≤ at.now.packet.now.content) }
    ensures forward { IfOk result (λ r. at.now.place < r.end) }
    ensures packet { OnOk result
        (packet_values (values_of scopes.new) ≡ packet_values (values_of scopes.old)) }
{
    let head = next_head(alloc, at, scratch, scopes)?;
    let end = put_body(alloc, at, &head, scratch, scopes)?;
    if end == at.place {
        return Err(StreamFault::EmptyEvent);
    }
    scratch.note(end - at.place, scopes.spent());
    Ok(EventRecord {
        event: head.event,
        clock: head.clock,
        end,
    })
}
