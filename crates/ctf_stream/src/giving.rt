//! Items that are given away.

ghost use Rattle.std.specs.Prelude.{◌≡◌, None, Ok, IsSome, length, IfOk, OnOk};
ghost use Rattle.ctf_decode.specs.Known.{value_at, without_value};
ghost use Rattle.ctf_clock.specs.declared.moment.Shift.{Shift};
ghost use Rattle.ctf_packet.specs.Places.{IsTimed, record_there};
ghost use Rattle.ctf_packet.specs.Views.{values_of, packet_values, recorded_of};
ghost use Rattle.ctf_stream.specs.ReadState.{Stands, HoldsIn};
ghost use Rattle.ctf_stream.specs.Owned.{item_of, IsOf, with_scope};
ghost use Rattle.ctf_stream.specs.Reader.{item};
ghost use Rattle.ctf_stream.specs.Standing.{item_at};

use crate::copy::copy;
use crate::owned::{OwnedEvent, OwnedGap, OwnedItem};
use crate::packet::{PacketItem, WrittenRecord};
use crate::read_state::ReadState;
use ctf_class::{Scope, StreamClass, TraceClass};
use ctf_clock::Moment;
use ctf_decode::Scopes;
use ctf_list::{NoMemory, Text};
use ctf_packet::{EventRecord, OpenPacket, RecordPlace, Scratch, clock_at_end, next_record};
use std::alloc::Global;

impl<'a> ReadState<'a> {
    /// The current item by value, of the packet at hand, which stays. `name` is the stream's.
    pub(crate) fn give(
        &mut self,
        alloc: Global,
        front: &PacketItem<'a>,
        name: &Text,
    ) -> Result<OwnedItem<'a>, NoMemory>
        requires stands { Stands self.old }
        requires within { IsSome self.old.packet }
        requires holds { HoldsIn self.old self.old.packet front.now }
        ensures given { IfOk result (λ x. item_at self.old self.old.packet front.now ≡
            item (item_of x self.old.taken (length self.old.buffer))) }
        ensures of { IfOk result (IsOf self.old.cut.trace.now name.now) }
        ensures cut { self.new.cut ≡ self.old.cut }
        ensures packet { self.new.packet ≡ self.old.packet }
        ensures buffer { self.new.buffer ≡ self.old.buffer }
        ensures taken { self.new.taken ≡ self.old.taken }
        ensures part { self.new.line.part ≡ self.old.line.part }
        ensures scratch { self.new.packet_scratch ≡ self.old.packet_scratch }
        ensures writes { self.new.writes ≡ self.old.writes }
        ensures values { OnOk result (packet_values (values_of self.new.scopes) ≡
            packet_values (values_of self.old.scopes)) }
    {
        let packet = match &self.packet {
            None => unreachable!(),
            Some(packet) => packet,
        };
        let opened = &packet.opened;
        match front {
            PacketItem::Event(record) => Ok(OwnedItem::Event(take_event(
                alloc,
                self.cut.trace,
                opened.stream,
                record,
                &mut self.scopes,
            )?)),
            PacketItem::Written(WrittenRecord { read, .. }) | PacketItem::Passed(read) => {
                let at = RecordPlace {
                    packet: opened,
                    bytes: self.buffer.as_slice(),
                    clock: read.before,
                    place: read.begin,
                };
                let record = read_again(alloc, &at, &mut self.scratch, &mut self.scopes)?;
                Ok(OwnedItem::Event(take_event(
                    alloc,
                    self.cut.trace,
                    opened.stream,
                    &record,
                    &mut self.scopes,
                )?))
            }
            PacketItem::Discarded(count) => Ok(OwnedItem::Discarded(gap(
                opened,
                *count,
                clock_at_end(
                    opened,
                    self.cut.shift,
                    self.scopes.get(Scope::PacketContext),
                ),
                name,
            )?)),
            PacketItem::Lost(count) => Ok(OwnedItem::Lost(gap(
                opened,
                *count,
                opened.clock,
                name,
            )?)),
        }
    }
}

/// An event record whose values are in `scopes`, with these and those of its packet.
fn take_event<'a>(
    alloc: Global,
    trace: &'a TraceClass,
    stream: &'a StreamClass,
    read: &EventRecord<'a>,
    scopes: &mut Scopes,
) -> Result<OwnedEvent<'a>, NoMemory>
    ensures trace { IfOk result (λ event. event.trace.now ≡ trace.now) }
    ensures stream { IfOk result (λ event. event.stream.now ≡ stream.now) }
    ensures class { IfOk result (λ event. event.class.now ≡ read.now.event.now) }
    ensures moment { IfOk result (λ event. event.moment ≡ read.now.clock) }
    ensures taken { IfOk result (λ event. values_of event.scopes ≡ values_of scopes.old) }
    ensures packet { packet_values (values_of scopes.new) ≡ packet_values (values_of scopes.old) }
{
    Ok(OwnedEvent {
        trace,
        stream,
        class: read.event,
        moment: read.clock,
        scopes: take_values(alloc, scopes)?,
    })
}

/// What a tracer did not write before a packet, from the clock before it until a moment.
fn gap(
    opened: &OpenPacket<'_>,
    count: u64,
    to: Option<Moment>,
    name: &Text,
) -> Result<OwnedGap, NoMemory>
    ensures { IfOk result (λ gap. gap ≡ record {
      count = count;
      moment = opened.now.clock;
      from = opened.now.before;
      to = to;
      name = name.now;
    }) }
{
    Ok(OwnedGap {
        count,
        moment: opened.clock,
        from: opened.before,
        to,
        name: name.clone()?,
    })
}

/// Reads an event record once more, for its values.
fn read_again<'a>(
    alloc: Global,
    at: &RecordPlace<'_, 'a>,
    scratch: &mut Scratch,
    scopes: &mut Scopes,
) -> Result<EventRecord<'a>, NoMemory>
    ensures records { (shift : Shift) → IsTimed shift at.now.packet.now →
        IfOk result (λ r. record_there shift (values_of scopes.old) at.now ≡
        Ok (recorded_of at.now.packet.now.stream.now (values_of scopes.new) r)) }
    ensures packet { OnOk result (packet_values (values_of scopes.new) ≡
        packet_values (values_of scopes.old)) }
{
    match next_record(alloc, at, scratch, scopes) {
        Ok(record) => Ok(record),
        Err(_) => Err(NoMemory),
    }
}

/// The values of an event record and of its packet. Those of the packet are copied, since its other event
/// records need them.
fn take_values(alloc: Global, scopes: &mut Scopes) -> Result<Scopes, NoMemory>
    ensures taken { IfOk result (λ taken. values_of taken ≡ values_of scopes.old) }
    ensures packet { packet_values (values_of scopes.new) ≡ packet_values (values_of scopes.old) }
{
    let mut taken = Scopes::new();
    copy_scope(alloc, scopes, Scope::PacketHeader, &mut taken)?;
    copy_scope(alloc, scopes, Scope::PacketContext, &mut taken)?;
    move_scope(scopes, Scope::EventHeader, &mut taken);
    move_scope(scopes, Scope::StreamEventContext, &mut taken);
    move_scope(scopes, Scope::EventContext, &mut taken);
    move_scope(scopes, Scope::EventFields, &mut taken);
    Ok(taken)
}

/// Puts a copy of the value of a scope, if there is one.
fn copy_scope(
    alloc: Global,
    scopes: &Scopes,
    scope: Scope,
    copied: &mut Scopes,
) -> Result<(), NoMemory>
    requires { value_at copied.old scope ≡ None }
    ensures { OnOk result (copied.new ≡ with_scope copied.old scope (value_at scopes.now scope)) }
{
    match scopes.get(scope) {
        None => Ok(()),
        Some(value) => {
            let value = copy(alloc, value)?;
            copied.put(scope, value);
            Ok(())
        }
    }
}

/// Moves the value of a scope, if there is one.
fn move_scope(scopes: &mut Scopes, scope: Scope, moved: &mut Scopes)
    requires { value_at moved.old scope ≡ None }
    ensures value { moved.new ≡ with_scope moved.old scope (value_at scopes.old scope) }
    ensures rest { scopes.new ≡ without_value scopes.old scope }
{
    match scopes.take(scope) {
        None => {}
        Some(value) => moved.put(scope, value),
    }
}
