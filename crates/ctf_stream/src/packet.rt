//! The packet at hand.

ghost use Rattle.std.specs.Prelude.{◌≡◌, ◌<◌, ◌≤◌, ℕ, List, Option, None, Some, Ok, OnOk, IfOk, IfSome, IfNone, IsTrue, length};
ghost use Rattle.ctf_clock.specs.declared.moment.Moment.{Moment};
ghost use Rattle.ctf_clock.specs.declared.moment.Shift.{Shift};
ghost use Rattle.ctf_record_text.specs.Making.{Makes};
ghost use Rattle.ctf_packet.specs.Classes.{Classes, stream_form};
ghost use Rattle.ctf_packet.specs.Items.{Run};
ghost use Rattle.ctf_packet.specs.Places.{IsTimed, record_there};
ghost use Rattle.ctf_packet.specs.Views.{values_of, packet_values};
ghost use Rattle.ctf_stream.specs.Asked.{AsksTexts};
ghost use Rattle.ctf_stream.specs.Coming.{front_in, left_in, room_in, HoldsFront, Within, TakesItem, TakesRoom};

use crate::texts::Texts;
use ctf_clock::Moment;
use ctf_decode::Scopes;
use ctf_fetch::Buffer;
use ctf_packet::{EventRecord, OpenPacket, RecordPlace, Scratch, StreamFault, next_record};
use ctf_record_text::{Headers, LineBuffer, LineRecord, next_line, passed_record, written_line};
use std::alloc::Global;

/// A packet whose items are given one after the other.
#[derive(Drop)]
pub(crate) struct PacketReader<'a> {
    pub(crate) opened: OpenPacket<'a>,
    /// How many packets were lost before it, where that is not reported yet.
    pub(crate) lost: Option<u64>,
    /// How many event records were discarded before it, where that is not reported yet.
    pub(crate) dropped: Option<u64>,
    /// The clock so far.
    pub(crate) clock: Option<Moment>,
    /// Where the next event record begins, in bits from the packet's first one.
    pub(crate) place: u64,
}

/// What the items of a packet are read with.
#[derive(Clone, Copy)]
pub(crate) struct PacketInput<'r> {
    pub(crate) alloc: Global,
    /// The packet's bytes.
    pub(crate) buffer: &'r Buffer,
    /// The event records that are asked for as texts.
    pub(crate) writes: Texts,
}

/// The current item of a packet.
#[derive(Clone, Copy)]
pub(crate) enum PacketItem<'a> {
    /// An event record, whose values are those of the scopes.
    Event(EventRecord<'a>),
    /// An event record, whose text was written.
    Written(WrittenRecord<'a>),
    /// An event record before those that are asked for as texts.
    Passed(ReadRecord<'a>),
    /// So many event records were discarded before the packet.
    Discarded(u64),
    /// So many packets were lost before the packet.
    Lost(u64),
}

/// An event record whose text is at the beginning of a line.
#[derive(Clone, Copy)]
pub(crate) struct WrittenRecord<'a> {
    pub(crate) read: ReadRecord<'a>,
    /// The index after its text, in bytes.
    pub(crate) end: usize,
}

/// An event record that was read without its values, and where.
#[derive(Clone, Copy)]
pub(crate) struct ReadRecord<'a> {
    pub(crate) event: EventRecord<'a>,
    /// Where it begins, in bits from the packet's first one.
    pub(crate) begin: u64,
    /// The clock before it.
    pub(crate) before: Option<Moment>,
}

impl<'a> PacketReader<'a> {
    /// The next item, if texts are asked for, and it is an event record that can be shown without its values: then its
    /// text is at the start of `line`. `scopes` has the values of the packet. Mostly that is the next item, so it is
    /// apart from `next`. Its header is one of those that are asked for.
    ///
    /// `None` elsewhere: the packet is as it was then, and the line's text is unspecified.
    #[inline(always)]
    pub(crate) fn next_written(
        &mut self,
        input: PacketInput<'_>,
        scopes: &Scopes,
        headers: Headers,
        line: &mut LineBuffer,
    ) -> Option<PacketItem<'a>>
        requires within { Within input.buffer.now self.old }
        ensures takes { let bytes = input.entry.buffer.now in
            (shift : Shift) (follows : Option Moment → Run Classes) →
            self.old.opened.timeline ≡ (stream_form shift self.old.opened.stream.now).line →
            IfSome result (λ front.
            TakesItem shift follows (left_in shift scopes.now bytes follows self.old) self.new
            scopes.now bytes (Ok (Some front))) }
        ensures written { (shift : Shift) →
            self.old.opened.timeline ≡ (stream_form shift self.old.opened.stream.now).line →
            IfSome result (HoldsFront input.entry.writes shift scopes.now input.entry.buffer.now
            line.old.part line.new.bytes.items self.new) }
        ensures part { line.new.part ≡ line.old.part }
        ensures room { IfSome result (λ _. room_in self.new < room_in self.old) }
        ensures opened { self.new.opened ≡ self.old.opened }
        ensures from { self.new.opened.first ≤ self.new.place }
        ensures place { self.new.place ≤ self.new.opened.content }
        ensures none { IfNone result (self.new ≡ self.old) }
    {
        if !input.writes.are_asked() || !self.is_at_record() {
            return None;
        }
        let before = self.clock;
        let begin = self.place;
        let at = RecordPlace {
            packet: &self.opened,
            bytes: input.buffer.padded(),
            clock: before,
            place: begin,
        };
        let made = written_line(input.alloc, &at, scopes, headers, line)?;
        self.clock = made.record.clock;
        self.place = made.record.end;
        Some(front_of(made, before, begin))
    }

    /// Whether the next item is an event record, if the content has one: nothing is to be reported before it.
    #[inline(always)]
    fn is_at_record(&self) -> bool
        ensures { let p = self.now in
            IsTrue result → (p.place < p.opened.content) × (p.lost ≡ None) × (p.dropped ≡ None) }
    {
        self.place < self.opened.content && self.lost.is_none() && self.dropped.is_none()
    }

    /// The next item, if it is an event record before those that are asked for as texts, and can be passed over.
    /// `scopes` has the values of the packet.
    ///
    /// `None` elsewhere: the packet is as it was then. Memory of `line` is used.
    #[inline(always)]
    pub(crate) fn next_passed(
        &mut self,
        input: PacketInput<'_>,
        scopes: &Scopes,
        line: &mut LineBuffer,
    ) -> Option<PacketItem<'a>>
        requires within { Within input.buffer.now self.old }
        ensures takes { let bytes = input.entry.buffer.now in
            (shift : Shift) (follows : Option Moment → Run Classes) →
            self.old.opened.timeline ≡ (stream_form shift self.old.opened.stream.now).line →
            IfSome result (λ front.
            TakesItem shift follows (left_in shift scopes.now bytes follows self.old) self.new
            scopes.now bytes (Ok (Some front))) }
        ensures holds { (shift : Shift) (part text : List ℕ) →
            self.old.opened.timeline ≡ (stream_form shift self.old.opened.stream.now).line →
            IfSome result (HoldsFront input.entry.writes shift scopes.now input.entry.buffer.now
            part text self.new) }
        ensures part { line.new.part ≡ line.old.part }
        ensures room { IfSome result (λ _. room_in self.new < room_in self.old) }
        ensures opened { self.new.opened ≡ self.old.opened }
        ensures from { self.new.opened.first ≤ self.new.place }
        ensures place { self.new.place ≤ self.new.opened.content }
        ensures none { IfNone result (self.new ≡ self.old) }
    {
        let Texts::From(time) = input.writes else {
            return None;
        };
        if !self.is_at_record() {
            return None;
        }
        let before = self.clock;
        let begin = self.place;
        let at = RecordPlace {
            packet: &self.opened,
            bytes: input.buffer.padded(),
            clock: before,
            place: begin,
        };
        let event = passed_record(&at, time, scopes, line)?;
        self.clock = event.clock;
        self.place = event.end;
        Some(PacketItem::Passed(ReadRecord {
            event,
            begin,
            before,
        }))
    }

    /// The next item; `None` after the last one. `scopes` has the values of the packet, and of an event record then,
    /// unless its text is asked for and could be written at the start of `line`. The memory of `scratch` is used.
    ///
    /// An error is the fault of the next event record: F6 to F11, or `NoMemory`.
    pub(crate) fn next(
        &mut self,
        input: PacketInput<'_>,
        scratch: &mut Scratch,
        scopes: &mut Scopes,
        line: &mut LineBuffer,
    ) -> Result<Option<PacketItem<'a>>, StreamFault>
        requires { Within input.buffer.now self.old }
        ensures takes { let bytes = input.entry.buffer.now in
            (shift : Shift) (follows : Option Moment → Run Classes) →
            self.old.opened.timeline ≡ (stream_form shift self.old.opened.stream.now).line →
            TakesItem shift follows (left_in shift scopes.old bytes follows self.old) self.new
            scopes.new bytes result }
        ensures written { (shift : Shift) →
            self.old.opened.timeline ≡ (stream_form shift self.old.opened.stream.now).line →
            IfOk result (λ front.
            IfSome front (HoldsFront input.entry.writes shift scopes.new input.entry.buffer.now
            line.old.part line.new.bytes.items self.new)) }
        ensures part { line.new.part ≡ line.old.part }
        ensures room { TakesRoom (room_in self.old) (room_in self.new) result }
        ensures opened { self.new.opened ≡ self.old.opened }
        ensures from { self.new.opened.first ≤ self.new.place }
        ensures place { self.new.place ≤ self.new.opened.content }
        ensures packet { OnOk result (packet_values (values_of scopes.new) ≡
            packet_values (values_of scopes.old)) }
    {
        if let Some(count) = self.lost {
            self.lost = None;
            return Ok(Some(PacketItem::Lost(count)));
        }
        if let Some(count) = self.dropped {
            self.dropped = None;
            return Ok(Some(PacketItem::Discarded(count)));
        }
        if self.place >= self.opened.content {
            return Ok(None);
        }
        let before = self.clock;
        let begin = self.place;
        let at = RecordPlace {
            packet: &self.opened,
            bytes: input.buffer.padded(),
            clock: before,
            place: begin,
        };
        let made = event_at(input, &at, scratch, scopes, line)?;
        self.clock = made.record.clock;
        self.place = made.record.end;
        Ok(Some(front_of(made, before, begin)))
    }
}

/// The event record at a place: with its text, where that is asked for and can be written, or with its values.
///
/// An error is the fault of the record: F6 to F11, or `NoMemory`.
#[inline(always)]
fn event_at<'a>(
    input: PacketInput<'_>,
    at: &RecordPlace<'_, 'a>,
    scratch: &mut Scratch,
    scopes: &mut Scopes,
    line: &mut LineBuffer,
) -> Result<LineRecord<'a>, StreamFault>
    ensures makes { (shift : Shift) → IsTimed shift at.now.packet.now →
        Makes at.now.packet.now.stream.now (record_there shift (values_of scopes.old) at.now)
        line.old.part scopes.new line.new.bytes.items result }
    ensures part { line.new.part ≡ line.old.part }
    ensures within { IfOk result (λ r. r.record.end ≤ at.now.packet.now.content) }
    ensures forward { IfOk result (λ r. at.now.place < r.record.end) }
    ensures packet { OnOk result (packet_values (values_of scopes.new) ≡
        packet_values (values_of scopes.old)) }
    ensures text { IfOk result
        (λ r. IfSome r.text
        (λ end. (end ≤ length line.new.bytes.items) × AsksTexts input.entry.writes)) }
{
    if input.writes.are_asked() {
        return next_line(input.alloc, at, scratch, scopes, line);
    }
    let record = next_record(input.alloc, at, scratch, scopes)?;
    Ok(LineRecord { record, text: None })
}

/// The current event record, which was read from a place on, where its packet's clock came so far.
#[inline(always)]
fn front_of(made: LineRecord<'_>, before: Option<Moment>, begin: u64) -> PacketItem<'_>
    ensures { result ≡ front_in made.entry before begin }
{
    match made.text {
        None => PacketItem::Event(made.record),
        Some(end) => PacketItem::Written(WrittenRecord {
            read: ReadRecord {
                event: made.record,
                begin,
                before,
            },
            end,
        }),
    }
}
