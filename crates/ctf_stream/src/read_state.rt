//! How far a stream was read.

ghost use Rattle.std.specs.Prelude.{◌≡◌, ◌+◌, ◌<◌, ◌≤◌, List, [], false, Some, None, Ok, ℕ, length, IsTrue, IfSome, IfOk, OnOk, OnErr};
ghost use Rattle.ctf_bits.specs.declared.source.Ending.{Ending};
ghost use Rattle.ctf_clock.specs.declared.moment.Shift.{Shift};
ghost use Rattle.ctf_packet.specs.Packets as packets;
ghost use Rattle.ctf_packet.specs.Scopes.{Values};
ghost use Rattle.ctf_packet.specs.Views.{values_of, packet_values, opened_of};
ghost use Rattle.ctf_stream.specs.Asked.{asked_first};
ghost use Rattle.ctf_stream.specs.Coming.{TakesRoom};
ghost use Rattle.ctf_stream.specs.Shown.{Tells, IsMadeTold, IsAsked};
ghost use Rattle.ctf_stream.specs.declared.texts.Texts.TheVariants as texts;
ghost use Rattle.ctf_stream.specs.Standing.{item_at};
ghost use Rattle.ctf_fetch.specs.Fetching.{longest_bytes, most_taken};
ghost use Rattle.ctf_stream.specs.ReadState.{coming_of, Stands, room_of, StepsWithin, Enters, EntersRoom, Advances, IsOfPacket, HasShared, IsPartOf, HoldsIn, HoldsFound, ReadsNext, between, stepped};

use crate::item::{CurrentItem, Event, EventText, Gap, Item};
use crate::packet::{PacketInput, PacketItem, PacketReader};
use crate::texts::Texts;
use ctf_bits::Source;
use ctf_class::{HasId, Scope};
use ctf_decode::Scopes;
use ctf_fetch::{Buffer, PacketScratch, PacketStart};
use ctf_packet::{OpenPacket, Reached, Scratch, StreamFault, clock_at_end};
use ctf_record_text::{Headers, LineBuffer};
use std::alloc::Global;

/// How far a stream was read.
#[derive(Drop)]
pub(crate) struct ReadState<'a> {
    /// Where the packet at hand begins, or the next one.
    pub(crate) cut: PacketStart<'a>,
    /// The packet at hand; within `advance` also one that was left.
    pub(crate) packet: Option<PacketReader<'a>>,
    /// The bytes of the packet at hand.
    pub(crate) buffer: Buffer,
    /// The values of the packet at hand, and of the current event record, if there is one.
    pub(crate) scopes: Scopes,
    /// Memory for the next event records.
    pub(crate) scratch: Scratch,
    /// What the packets before leave for the next one's header and context.
    pub(crate) packet_scratch: PacketScratch<'a>,
    /// The event records that are read as texts, where they can.
    pub(crate) writes: Texts,
    /// The text of the current event record, if it was read as that, and what the lines of the last packet that had
    /// room for event records share.
    pub(crate) line: LineBuffer,
    /// How many bytes were taken from the source.
    pub(crate) taken: u64,
}

impl<'a> ReadState<'a> {
    /// A stream of which nothing was read, from a packet boundary on.
    pub(crate) fn new(alloc: Global, cut: PacketStart<'a>) -> ReadState<'a>
        ensures cut { result.cut ≡ cut.entry }
        ensures packet { result.packet ≡ None }
        ensures buffer { result.buffer ≡ [] }
        ensures shared { HasShared result }
        ensures taken { result.taken ≡ cut.entry.at }
        ensures writes { result.writes ≡ texts.None }
    {
        ReadState {
            cut,
            packet: None,
            buffer: Buffer::new(alloc),
            scopes: Scopes::new(),
            scratch: Scratch::new(alloc),
            packet_scratch: PacketScratch::new(),
            writes: Texts::None,
            line: LineBuffer::new(alloc),
            taken: cut.at,
        }
    }

    /// Asks for event records as texts, where none are asked for yet: for all, or for those from this time on, in
    /// nanoseconds since the epoch, if it is given.
    pub(crate) fn ask(&mut self, begin: Option<i64>)
        ensures { self.new ≡ record self.old { writes = asked_first self.old.writes begin } }
    {
        self.writes = self.writes.or_from(begin);
    }

    /// Gives the memory back, and holds nothing.
    #[cold]
    #[inline(never)]
    pub(crate) fn release(&mut self, alloc: Global)
        ensures cut { self.new.cut ≡ self.old.cut }
        ensures packet { self.new.packet ≡ None }
        ensures buffer { self.new.buffer ≡ [] }
        ensures taken { self.new.taken ≡ self.old.taken }
        ensures writes { self.new.writes ≡ self.old.writes }
    {
        self.packet = None;
        self.buffer = Buffer::new(alloc);
        self.scopes = Scopes::new();
        self.scratch = Scratch::new(alloc);
        self.packet_scratch = PacketScratch::new();
        self.line = LineBuffer::new(alloc);
    }

    /// The next item, if it is an event record of the packet at hand that can be shown without its values, where texts
    /// are asked for: one with a usual header. `None` elsewhere, and where it may be one to pass over, unless the one
    /// before was `written`: then only the line is another one.
    #[inline(always)]
    pub(crate) fn next_written(&mut self, alloc: Global, written: bool) -> Option<PacketItem<'a>>
        requires stands { Stands self.old }
        requires shared { HasShared self.old }
        ensures { ReadsNext self.old self.new result }
    {
        if self.is_early() && !written {
            return None;
        }
        self.next_text(alloc, Headers::Usual)
    }

    /// Whether the event records so far are before those that are asked for as texts. The next one mostly is, too.
    #[inline(always)]
    fn is_early(&self) -> bool {
        let Texts::From(begin) = self.writes else {
            return false;
        };
        let Some(packet) = &self.packet else {
            return false;
        };
        match packet.clock {
            Some(moment) => moment.time < begin,
            None => false,
        }
    }

    /// The next item, as `next_written` gives it, whatever its time.
    #[inline(always)]
    fn next_text(&mut self, alloc: Global, headers: Headers) -> Option<PacketItem<'a>>
        requires stands { Stands self.old }
        requires shared { HasShared self.old }
        ensures { ReadsNext self.old self.new result }
    {
        let packet = match &mut self.packet {
            None => return None,
            Some(packet) => packet,
        };
        let input = PacketInput {
            alloc,
            buffer: &self.buffer,
            writes: self.writes,
        };
        packet.next_written(input, &self.scopes, headers, &mut self.line)
    }

    /// The next item, if it is an event record of the packet at hand that `next_written` left out: one that is passed
    /// over, or shown after such ones, or one with an unusual header. `None` elsewhere: then only the line is another
    /// one.
    #[inline(always)]
    pub(crate) fn next_apart(&mut self, alloc: Global) -> Option<PacketItem<'a>>
        requires stands { Stands self.old }
        requires shared { HasShared self.old }
        ensures { ReadsNext self.old self.new result }
    {
        if self.is_early() {
            if let Some(front) = self.next_early(alloc) {
                return Some(front);
            }
        }
        self.next_text(alloc, Headers::Unusual)
    }

    /// The next item, as `next_apart` gives it. Mostly there is none, so this is kept out of the way.
    #[cold]
    #[inline(never)]
    fn next_seldom(&mut self, alloc: Global) -> Option<PacketItem<'a>>
        requires stands { Stands self.old }
        requires shared { HasShared self.old }
        ensures { ReadsNext self.old self.new result }
    {
        self.next_apart(alloc)
    }

    /// The next item, if it is an event record of the packet at hand that is passed over, or else one with a usual
    /// header that is shown. `None` elsewhere: then only the line is another one. It is out of the way of readers
    /// without a beginning.
    #[inline(never)]
    fn next_early(&mut self, alloc: Global) -> Option<PacketItem<'a>>
        requires stands { Stands self.old }
        requires shared { HasShared self.old }
        ensures { ReadsNext self.old self.new result }
    {
        if let Some(front) = self.next_passed(alloc) {
            return Some(front);
        }
        self.next_text(alloc, Headers::Usual)
    }

    /// The next item, if it is an event record of the packet at hand that is passed over. `None` elsewhere: then only the
    /// line is another one.
    #[inline(always)]
    fn next_passed(&mut self, alloc: Global) -> Option<PacketItem<'a>>
        requires stands { Stands self.old }
        requires shared { HasShared self.old }
        ensures { ReadsNext self.old self.new result }
    {
        let packet = match &mut self.packet {
            None => return None,
            Some(packet) => packet,
        };
        let input = PacketInput {
            alloc,
            buffer: &self.buffer,
            writes: self.writes,
        };
        packet.next_passed(input, &self.scopes, &mut self.line)
    }

    /// The next item, out of a source, where `next_written` and `next_apart` gave none. `None` where the stream ends.
    ///
    /// An error is the fault of the stream after the items before, or `NoMemory`.
    #[inline(always)]
    pub(crate) fn advance<S: Source>(
        &mut self,
        alloc: Global,
        source: &mut S,
    ) -> Result<Option<PacketItem<'a>>, StreamFault>
        requires stands { Stands self.old }
        requires shared { HasShared self.old }
        ensures tells { IsTrue (S.tells source.old) → IsTrue (S.tells source.new) }
        ensures same_end { IsTrue (S.tells source.old) → S.ending source.new ≡ S.ending source.old }
        ensures advances { let ending = S.ending source.old in
            IsTrue (S.tells source.old) →
            Advances (coming_of ending (S.left source.old) self.old)
            (coming_of ending (S.left source.new) self.new) self.new.cut self.new.scopes
            self.new.buffer self.new.packet (S.left source.new) result }
        ensures counted { IsTrue (S.tells source.old) →
            self.new.taken + length (S.left source.new) ≡
            self.old.taken + length (S.left source.old) }
        ensures stands { OnOk result (Stands self.new) }
        ensures shared { OnOk result (HasShared self.new) }
        ensures found { IfOk result (IsOfPacket self.new.packet) }
        ensures holds { IfOk result (HoldsFound self.new) }
        ensures writes { self.new.writes ≡ self.old.writes }
        ensures trace { self.new.cut.trace ≡ self.old.cut.trace }
        ensures room { TakesRoom (room_of self.old) (room_of self.new) result }
        ensures forward { self.old.taken ≤ self.new.taken }
        ensures after { OnErr result (self.new.cut.at ≤ self.new.taken) }
        ensures near { OnErr result (self.new.taken ≤ self.new.cut.at + longest_bytes + 1) }
        ensures most { OnErr result (self.new.taken ≤ most_taken) }
    {
        loop {
            match self.step_within(alloc) {
                Err(fault) => return Err(fault),
                Ok(Some(front)) => return Ok(Some(front)),
                Ok(None) => {}
            }
            match self.enter(alloc, source) {
                Err(fault) => return Err(fault),
                Ok(false) => return Ok(None),
                Ok(true) => {}
            }
            if let Some(front) = self.next_written(alloc, false) {
                return Ok(Some(front));
            }
            if let Some(front) = self.next_seldom(alloc) {
                return Ok(Some(front));
            }
        }
    }

    /// Fetches the next packet, in place of the one before. Whether there is one.
    #[inline(always)]
    fn enter<S: Source>(&mut self, alloc: Global, source: &mut S) -> Result<bool, StreamFault>
        requires stands { Stands (between self.old) }
        requires shared { HasShared (between self.old) }
        ensures tells { IsTrue (S.tells source.old) → IsTrue (S.tells source.new) }
        ensures same_end { IsTrue (S.tells source.old) → S.ending source.new ≡ S.ending source.old }
        ensures enters { let ending = S.ending source.old in
            IsTrue (S.tells source.old) →
            Enters (coming_of ending (S.left source.old) (between self.old))
            (coming_of ending (S.left source.new) self.new) self.new.cut
            (S.left source.new) result }
        ensures counted { IsTrue (S.tells source.old) →
            self.new.taken + length (S.left source.new) ≡
            self.old.taken + length (S.left source.old) }
        ensures stands { OnOk result (Stands self.new) }
        ensures shared { OnOk result (HasShared self.new) }
        ensures none { IfOk result (λ found. found ≡ false → self.new.packet ≡ None) }
        ensures room { EntersRoom (room_of (between self.old)) (room_of self.new) result }
        ensures writes { self.new.writes ≡ self.old.writes }
        ensures cut { self.new.cut ≡ self.old.cut }
        ensures after { self.old.taken ≤ self.new.taken }
        ensures near { self.new.taken ≤ self.old.taken + longest_bytes + 1 }
        ensures most { OnErr result (self.new.taken ≤ most_taken) }
    {
        let fetched = self.cut.fetch(
            alloc,
            source,
            &mut self.buffer,
            &mut self.scopes,
            &mut self.packet_scratch,
        );
        self.taken += self.buffer.len() as u64;
        match fetched {
            Err(fault) => Err(fault),
            Ok(None) => {
                self.packet = None;
                Ok(false)
            }
            Ok(Some(opened)) => {
                if opened.first < opened.content {
                    let context = self.scopes.get(Scope::PacketContext);
                    match self.line.part.make(opened.stream.context_front(), context) {
                        Err(_) => return Err(StreamFault::NoMemory),
                        Ok(()) => {}
                    }
                }
                self.packet = Some(PacketReader {
                    lost: opened.lost,
                    dropped: opened.dropped,
                    clock: opened.clock,
                    place: opened.first,
                    opened,
                });
                Ok(true)
            }
        }
    }

    /// The next item of the packet at hand. `None` where there is none: then the packet is left, and what is kept of it
    /// means nothing. It is not cleared, since mostly the next one is put there at once.
    fn step_within(&mut self, alloc: Global) -> Result<Option<PacketItem<'a>>, StreamFault>
        requires stands { Stands self.old }
        requires shared { HasShared self.old }
        ensures steps { (ending : Ending) (left : List ℕ) →
            let new = stepped result self.new in
            StepsWithin (coming_of ending left self.old) (coming_of ending left new)
            new.cut new.scopes new.buffer new.packet result }
        ensures stands { OnOk result (Stands (stepped result self.new)) }
        ensures shared { OnOk result (HasShared (stepped result self.new)) }
        ensures taken { self.new.taken ≡ self.old.taken }
        ensures room { TakesRoom (room_of self.old) (room_of (stepped result self.new)) result }
        ensures cut { OnErr result (self.new.cut ≡ self.old.cut) }
        ensures found { IfOk result (IsOfPacket (stepped result self.new).packet) }
        ensures holds { IfOk result (HoldsFound self.new) }
        ensures writes { self.new.writes ≡ self.old.writes }
        ensures trace { self.new.cut.trace ≡ self.old.cut.trace }
    {
        let packet = match &mut self.packet {
            None => return Ok(None),
            Some(packet) => packet,
        };
        let input = PacketInput {
            alloc,
            buffer: &self.buffer,
            writes: self.writes,
        };
        match packet.next(input, &mut self.scratch, &mut self.scopes, &mut self.line) {
            Err(fault) => Err(fault),
            Ok(Some(front)) => Ok(Some(front)),
            Ok(None) => {
                let reached = reached_after(packet);
                self.leave(reached);
                Ok(None)
            }
        }
    }

    /// The current item, of the packet at hand. `name` is the stream's.
    pub(crate) fn current_item<'r>(
        &'r self,
        front: &'r PacketItem<'a>,
        name: &'r str,
    ) -> Option<CurrentItem<'r>>
        requires part { IsPartOf (packet_values (values_of self.now.scopes)) self.now.line.part
            self.now.packet }
        requires holds { HoldsIn self.now self.now.packet front.now }
        ensures tells { Tells self.now.cut.trace.now name.now
            (item_at self.now self.now.packet front.now) result }
        ensures made { IfSome result IsMadeTold }
        ensures asked { IfSome result (IsAsked self.now.writes) }
    {
        let packet = match &self.packet {
            None => return None,
            Some(packet) => packet,
        };
        let opened = &packet.opened;
        match front {
            PacketItem::Event(record) => Some(CurrentItem::Item(Item::Event(Event {
                trace: self.cut.trace,
                stream: opened.stream,
                class: record.event,
                moment: record.clock,
                scopes: &self.scopes,
                part: Some(self.line.part.as_slice()),
            }))),
            PacketItem::Written(written) => Some(CurrentItem::Text(EventText {
                moment: written.read.event.clock,
                text: &self.line.bytes[..written.end],
            })),
            PacketItem::Passed(read) => Some(CurrentItem::Passed(read.event.clock)),
            PacketItem::Discarded(count) => Some(CurrentItem::Item(Item::Discarded(Gap {
                count: *count,
                moment: opened.clock,
                from: opened.before,
                to: clock_at_end(
                    opened,
                    self.cut.shift,
                    self.scopes.get(Scope::PacketContext),
                ),
                name,
            }))),
            PacketItem::Lost(count) => Some(CurrentItem::Item(Item::Lost(Gap {
                count: *count,
                moment: opened.clock,
                from: opened.before,
                to: opened.clock,
                name,
            }))),
        }
    }

    /// Goes past the packet at hand. What is kept of it means nothing then.
    #[inline(always)]
    fn leave(&mut self, reached: Reached)
        ensures trace { self.new.cut.trace ≡ self.old.cut.trace }
        ensures shift { self.new.cut.shift ≡ self.old.cut.shift }
        ensures reached { self.new.cut.reached ≡ Some reached }
        ensures at { self.new.cut.at ≡ self.old.taken }
        ensures empty { self.new.buffer ≡ [] }
        ensures scopes { self.new.scopes ≡ self.old.scopes }
        ensures scratch { self.new.packet_scratch ≡ self.old.packet_scratch }
        ensures taken { self.new.taken ≡ self.old.taken }
        ensures writes { self.new.writes ≡ self.old.writes }
    {
        self.cut.go_on(reached, self.taken);
        self.buffer.clear();
    }
}

/// What a stream has come to after a packet.
fn reached_after(packet: &PacketReader<'_>) -> Reached
    ensures { (shift : Shift) (values : Values) →
        result ≡ packets.reached_after (opened_of shift values packet.now.opened)
        packet.now.clock }
{
    Reached {
        stream: packet.opened.stream.id(),
        clock: packet.clock,
        discarded: packet.opened.discarded,
        number: packet.opened.number,
    }
}
