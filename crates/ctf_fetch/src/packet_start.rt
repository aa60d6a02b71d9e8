//! Packets out of a source.

ghost use Rattle.std.specs.Prelude.{◌≡◌, ◌+◌, ◌*◌, ◌^◌, ◌≤◌, ◌<◌, [], ◌++◌, max, length, Some, None, true, IsTrue, ◌⊎◌, Err, IfOk, IfErr, IfSome, OnOk};
ghost use Rattle.ctf_class.specs.declared.route.Scope.TheVariants.{EventContext, EventFields};
ghost use Rattle.ctf_decode.specs.Known.{nothing_known, without_value};
ghost use Rattle.ctf_packet.specs.Classes.{trace_form};
ghost use Rattle.ctf_packet.specs.Packets.{open_at, are_possible};
ghost use Rattle.ctf_packet.specs.Items.{from_bytes};
ghost use Rattle.ctf_packet.specs.Gives.{Fitting};
ghost use Rattle.ctf_packet.specs.Views.{values_of, packet_values};
ghost use Rattle.ctf_packet_demand.specs.Wants as wants;
ghost use Rattle.ctf_fetch.specs.Failing.{FailsAs, IfFault};
ghost use Rattle.ctf_fetch.specs.Fetching.{longest_bytes, Fetches, FetchedAt, FetchesAt};
ghost use Rattle.ctf_packet.specs.declared.fault.StreamFault.TheVariants.{NoMemory};
ghost use Rattle.ctf_fetch.specs.Demand.{FrontTakes};
ghost use Rattle.ctf_fetch.specs.Headers.{FindsHeader, KnowsHeaderIn};
ghost use Rattle.ctf_fetch.specs.Openings.{want_of, FitsOpening, TakesWhole, TakesRest, TakesSized, Opens};
ghost use Rattle.ctf_fetch.specs.Keeping.{Keeps};

use crate::buffer::{Buffer, Filled};
use crate::intake::Intake;
use crate::known_header::{FoundHeader, KnownHeader};
use crate::least::least_front;
use crate::packet_scratch::PacketScratch;
use crate::scope::{NextScope, scope_on_demand};
use ctf_bits::{Ending, Source};
use ctf_class::{HasId, Scope, TraceClass};
use ctf_clock::Shift;
use ctf_decode::{Scopes, Value};
use ctf_packet::{
    OpenPacket, PacketPlace, Reached, Sizes, StreamFault, cut_short, packet_of_sizes,
    sizes_checked, stream_checked,
};
use ctf_packet_demand::{Begun, Want, judge_sizes};
use std::alloc::Global;

/// The longest packet, in bytes.
const LONGEST_BYTES: usize = 268_435_456;

/// A header and context that take more bits are large.
const LONGEST_SMALL: u64 = 32_768;

/// A header and context that have more values are large.
const MOST_SMALL: u64 = 256;

/// The longest stream, in bytes.
const LONGEST_STREAM: u64 = 1 << 60;

/// A place between two packets of a stream, or before its first one (CTF 1.8.3, section 5).
#[derive(Clone, Copy)]
pub struct PacketStart<'a> {
    pub trace: &'a TraceClass,
    /// What is added to each time.
    pub shift: Shift,
    /// What the stream came to by the packet before, if there is one.
    pub reached: Option<Reached>,
    /// In bytes of the stream.
    pub at: u64,
    /// How many bytes the header and the context of a packet take at least, which are asked for at once; 0 before the
    /// first packet, since a stream may be empty.
    least: usize,
    ghost takes: { FrontTakes trace.now least },
    ghost bounded: { least ≤ longest_bytes },
}

/// A packet whose header and context were decoded.
#[derive(Clone, Copy)]
pub(crate) struct Opening<'a> {
    begun: Begun<'a>,
    /// Its sizes, in bits. `None` where its context gives none: then it is the rest of its stream.
    sizes: Option<Sizes>,
}

/// Takes the bytes of a packet of a size, in bytes.
fn fill_whole<S: Source>(intake: &mut Intake<'_, S>, count: usize) -> Result<(), StreamFault>
    requires { length intake.old.buffer.now ≤ count }
    ensures keeps { Keeps S.Source intake.old intake.new }
    ensures takes { IsTrue (S.tells intake.old.source.now) →
        TakesWhole (S.ending intake.old.source.now) count intake.new.buffer.now
        (S.left intake.new.source.now) result }
    ensures whole { OnOk result (length intake.new.buffer.now ≡ count) }
    ensures few { length intake.new.buffer.now ≤ count }
{
    match intake.fill(count)? {
        Filled::Whole => Ok(()),
        Filled::Ended(ending) => Err(cut_short(ending)),
    }
}

/// Takes all bytes that are left, if a packet can have as many, and answers how the stream ends.
#[inline(never)]
fn fill_rest<S: Source>(intake: &mut Intake<'_, S>) -> Result<Ending, StreamFault>
    requires { length intake.old.buffer.now ≤ longest_bytes }
    ensures keeps { Keeps S.Source intake.old intake.new }
    ensures takes { IsTrue (S.tells intake.old.source.now) →
        TakesRest (S.ending intake.old.source.now) intake.new.buffer.now
        (S.left intake.new.source.now) result }
    ensures whole { OnOk result (length intake.new.buffer.now ≤ longest_bytes) }
    ensures few { length intake.new.buffer.now ≤ longest_bytes + 1 }
{
    match intake.fill(LONGEST_BYTES + 1)? {
        Filled::Whole => Err(StreamFault::ImpossibleSizes),
        Filled::Ended(ending) => {
            intake.buffer.fit();
            Ok(ending)
        }
    }
}

impl<'a> PacketStart<'a> {
    /// The beginning of a stream.
    pub fn new(trace: &'a TraceClass, shift: Shift) -> PacketStart<'a>
        ensures trace { result.trace ≡ trace.entry }
        ensures shift { result.shift ≡ shift }
        ensures reached { result.reached ≡ None }
        ensures at { result.at ≡ 0 }
    {
        PacketStart {
            trace,
            shift,
            reached: None,
            at: 0,
            least: 0,
        }
    }

    /// Goes on to the end of the packet that begins here, which is at the byte `at` of the stream. `reached` is what
    /// the stream came to by it.
    pub fn go_on(&mut self, reached: Reached, at: u64)
        ensures trace { self.new.trace ≡ self.old.trace }
        ensures shift { self.new.shift ≡ self.old.shift }
        ensures reached { self.new.reached ≡ Some reached }
        ensures at { self.new.at ≡ at }
    {
        if self.reached.is_none() {
            self.least = least_front(self.trace);
        }
        self.reached = Some(reached);
        self.at = at;
    }

    /// The packet that begins here, out of a source (CTF 1.8.3, section 5); its bytes are in `buffer` then, and the
    /// values of its header and context in `scopes`, made in the memory of `scratch`. `None` where the stream ends
    /// here. `scratch` is new, or that of the packet before, whose header is still in `scopes` then.
    ///
    /// It takes the bytes that each header and context ask for, one at least, then those that this header and this
    /// context ask for, then the rest of the packet: 2^28 bytes at the most, and one more of a stream whose rest is
    /// longer.
    ///
    /// An error is the first fault of the packet before its event records: F1 to F5, F8, F9, F11, F13 or F14; or
    /// `NoMemory`. The bytes that were taken are in `buffer` then too, and `scratch` is not to be used again.
    pub fn fetch<S: Source>(
        &self,
        alloc: Global,
        source: &mut S,
        buffer: &mut Buffer,
        scopes: &mut Scopes,
        scratch: &mut PacketScratch<'a>,
    ) -> Result<Option<OpenPacket<'a>>, StreamFault>
        requires at { self.now.at ≤ 2 ^ 61 }
        requires empty { buffer.old ≡ [] }
        requires knows { KnowsHeaderIn self.now.trace.now scratch.old scopes.old }
        ensures tells { IsTrue (S.tells source.old) → IsTrue (S.tells source.new) }
        ensures same_end { IsTrue (S.tells source.old) → S.ending source.new ≡ S.ending source.old }
        ensures kept { IsTrue (S.tells source.old) →
            buffer.new ++ S.left source.new ≡ S.left source.old }
        ensures fetches { let cut = self.now in
            let trace = trace_form cut.shift cut.trace.now in
            let ending = S.ending source.old in
            IsTrue (S.tells source.old) →
            Fetches cut.shift scopes.new trace ending cut.at
            (from_bytes trace ending cut.reached cut.at (S.left source.old)) buffer.new
            (S.left source.new) result }
        ensures at { FetchesAt self.now.at buffer.new self.now.shift result }
        ensures begins { IfOk result (λ packet. self.now.at ≤ 2 ^ 60 ⊎ (packet ≡ None)) }
        ensures knows { OnOk result (KnowsHeaderIn self.now.trace.now scratch.new scopes.new) }
        ensures few { length buffer.new ≤ longest_bytes + 1 }
        ensures last { 2 ^ 60 < self.now.at → length buffer.new ≤ 1 }
    {
        let mut intake = Intake { source, buffer };
        match self.take_first(&mut intake)? {
            Some(Ending::Clean) => return Ok(None),
            Some(Ending::Failed) => return Err(StreamFault::ReadFailed),
            None => {}
        }
        if self.at > LONGEST_STREAM {
            return Err(StreamFault::StreamTooLong);
        }
        match self.open(alloc, &mut intake, scopes, scratch) {
            Ok(packet) => Ok(Some(packet)),
            Err(fault) => Err(fault),
        }
    }

    /// Takes the bytes that each header and context ask for, as far as the stream has them. It answers how the stream
    /// ends, where that has no byte more.
    fn take_first<S: Source>(
        &self,
        intake: &mut Intake<'_, S>,
    ) -> Result<Option<Ending>, StreamFault>
        requires empty { intake.old.buffer.now ≡ [] }
        ensures keeps { Keeps S.Source intake.old intake.new }
        ensures ended { IsTrue (S.tells intake.old.source.now) →
            IfOk result (λ ended.
            IfSome ended (λ e. (e ≡ S.ending intake.old.source.now) ×
            (S.left intake.new.source.now ≡ []))) }
        ensures nothing { IfOk result (λ ended. IfSome ended (λ _. intake.new.buffer.now ≡ [])) }
        ensures some { IfOk result (λ ended. ended ≡ None → 0 < length intake.new.buffer.now) }
        ensures few { length intake.new.buffer.now ≤ max 1 self.now.least }
        ensures last { 2 ^ 60 < self.now.at → length intake.new.buffer.now ≤ 1 }
        ensures refused { IfErr result (λ fault. fault ≡ NoMemory) }
    {
        let count = if self.at > LONGEST_STREAM {
            1
        } else {
            self.least.max(1)
        };
        match intake.fill(count)? {
            Filled::Ended(ending) if intake.len() == 0 => Ok(Some(ending)),
            _ => Ok(None),
        }
    }

    /// Opens the packet whose first bytes are in the buffer: at least one, and at most as many as each header and
    /// context of the trace take, so that none of them is of the next packet.
    fn open<S: Source>(
        &self,
        alloc: Global,
        intake: &mut Intake<'_, S>,
        scopes: &mut Scopes,
        scratch: &mut PacketScratch<'a>,
    ) -> Result<OpenPacket<'a>, StreamFault>
        requires at { self.now.at ≤ 2 ^ 60 }
        requires some { 0 < length intake.old.buffer.now }
        requires few { length intake.old.buffer.now ≤ max 1 self.now.least }
        requires knows { KnowsHeaderIn self.now.trace.now scratch.old scopes.old }
        ensures keeps { Keeps S.Source intake.old intake.new }
        ensures knows { OnOk result (KnowsHeaderIn self.now.trace.now scratch.new scopes.new) }
        ensures opens { let cut = self.now in
            IsTrue (S.tells intake.old.source.now) →
            Opens cut.shift scopes.new
            (open_at (trace_form cut.shift cut.trace.now) (S.ending intake.old.source.now)
            cut.reached cut.at (intake.old.buffer.now ++ S.left intake.old.source.now)) result }
        ensures at { IfOk result (FetchedAt self.now.at intake.new.buffer.now self.now.shift) }
        ensures alone { OnOk result (packet_values (values_of scopes.new) ≡ values_of scopes.new) }
        ensures few { length intake.new.buffer.now ≤ longest_bytes + 1 }
    {
        let opening = self.begin(alloc, intake, scopes, scratch)?;
        let sizes = fill_sizes(intake, opening)?;
        let Begun { stream, first } = opening.begun;
        let place = PacketPlace {
            shift: self.shift,
            reached: self.reached.as_ref(),
            start: self.at,
        };
        let context = scopes.get(Scope::PacketContext);
        packet_of_sizes(stream, &place, context, first, sizes)
    }

    /// The header of the packet whose first bytes are in the buffer, with its value alone in `scopes`: the one that is
    /// known, if the packet begins with its bytes; else bytes are taken until it is there.
    #[inline(always)]
    fn header<S: Source>(
        &self,
        alloc: Global,
        intake: &mut Intake<'_, S>,
        scopes: &mut Scopes,
        scratch: &mut PacketScratch<'a>,
    ) -> Result<FoundHeader<'a>, StreamFault>
        requires few { length intake.old.buffer.now ≤ longest_bytes }
        requires knows { KnowsHeaderIn self.now.trace.now scratch.old scopes.old }
        ensures keeps { Keeps S.Source intake.old intake.new }
        ensures finds { let cut = self.now in
            let finds = FindsHeader cut.shift cut.trace.now cut.reached in
            IfOk result (finds intake.old.buffer.now intake.new.buffer.now scopes.new) }
        ensures knows { OnOk result (KnowsHeaderIn self.now.trace.now scratch.new scopes.new) }
        ensures faulty { let cut = self.now in
            let trace = trace_form cut.shift cut.trace.now in
            IfFault S.Source intake.old intake.new result
            (λ ending all. FailsAs (open_at trace ending cut.reached cut.at all)) }
        ensures few { length intake.new.buffer.now ≤ longest_bytes }
    {
        match self.known_header(intake.as_slice(), scopes, scratch) {
            Some(found) => Ok(found),
            None => self.header_on_demand(alloc, intake, scopes, scratch),
        }
    }

    /// The header that is known, if a packet of these first bytes has it, and if the packets before are of its stream
    /// class. Then its value alone is in `scopes`; else they are as they were.
    #[inline(always)]
    fn known_header(
        &self,
        bytes: &[u8],
        scopes: &mut Scopes,
        scratch: &mut PacketScratch<'a>,
    ) -> Option<FoundHeader<'a>>
        requires knows { KnowsHeaderIn self.now.trace.now scratch.old scopes.old }
        ensures finds { let cut = self.now in
            let finds = FindsHeader cut.shift cut.trace.now cut.reached in
            IfSome result (finds bytes.now bytes.now scopes.new) }
        ensures knows { KnowsHeaderIn self.now.trace.now scratch.new scopes.new }
    {
        let known = match (&scratch.known, &self.reached) {
            (Some(known), Some(reached)) if known.found.stream.id() == reached.stream => known,
            _ => return None,
        };
        if !known.is_front_of(bytes) {
            return None;
        }
        leave_packet(scopes, &mut scratch.context, scratch.is_large);
        scopes.set_spent(known.spent);
        Some(known.found)
    }

    /// Takes bytes until the header of a packet is there. That of a stream's first packet is known from then on, until
    /// this is called again: where a packet has another one, or where fewer bytes than its are asked for at once.
    #[cold]
    #[inline(never)]
    fn header_on_demand<S: Source>(
        &self,
        alloc: Global,
        intake: &mut Intake<'_, S>,
        scopes: &mut Scopes,
        scratch: &mut PacketScratch<'a>,
    ) -> Result<FoundHeader<'a>, StreamFault>
        requires few { length intake.old.buffer.now ≤ longest_bytes }
        ensures keeps { Keeps S.Source intake.old intake.new }
        ensures finds { let cut = self.now in
            let finds = FindsHeader cut.shift cut.trace.now cut.reached in
            IfOk result (finds intake.old.buffer.now intake.new.buffer.now scopes.new) }
        ensures knows { OnOk result (KnowsHeaderIn self.now.trace.now scratch.new scopes.new) }
        ensures faulty { let cut = self.now in
            let trace = trace_form cut.shift cut.trace.now in
            IfFault S.Source intake.old intake.new result
            (λ ending all. FailsAs (open_at trace ending cut.reached cut.at all)) }
        ensures few { length intake.new.buffer.now ≤ longest_bytes }
    {
        forget(scopes, scratch);
        let header = NextScope {
            class: self.trace.packet_header(),
            scope: Scope::PacketHeader,
            end: 0,
            alloc,
        };
        let end = scope_on_demand(&header, intake, &mut scratch.header, scopes)?;
        let reached = self.reached.as_ref();
        let stream = stream_checked(self.trace, reached, scopes.get(Scope::PacketHeader))?;
        let found = FoundHeader { stream, end };
        // With the header of a later packet come bytes of its context, and hardly another packet begins with those.
        if self.reached.is_none() {
            scratch.known = KnownHeader::new(alloc, intake.as_slice(), found, scopes.spent());
        }
        Ok(found)
    }

    /// Takes bytes until the header and context of a packet are there.
    fn begin<S: Source>(
        &self,
        alloc: Global,
        intake: &mut Intake<'_, S>,
        scopes: &mut Scopes,
        scratch: &mut PacketScratch<'a>,
    ) -> Result<Opening<'a>, StreamFault>
        requires some { 0 < length intake.old.buffer.now }
        requires few { length intake.old.buffer.now ≤ max 1 self.now.least }
        requires knows { KnowsHeaderIn self.now.trace.now scratch.old scopes.old }
        ensures keeps { Keeps S.Source intake.old intake.new }
        ensures knows { OnOk result (KnowsHeaderIn self.now.trace.now scratch.new scopes.new) }
        ensures asks { let cut = self.now in
            IfOk result (λ opening.
            wants.wanted (trace_form cut.shift cut.trace.now) cut.reached intake.new.buffer.now ≡
            want_of cut.shift scopes.new opening opening.sizes) }
        ensures faulty { let cut = self.now in
            let trace = trace_form cut.shift cut.trace.now in
            IfFault S.Source intake.old intake.new result
            (λ ending all. FailsAs (open_at trace ending cut.reached cut.at all)) }
        ensures fits { IfOk result
            (λ opening. FitsOpening (length intake.new.buffer.now) opening.sizes) }
        ensures first { IfOk result
            (λ opening. opening.begun.first ≤ 8 * length intake.new.buffer.now) }
        ensures some { 0 < length intake.new.buffer.now }
        ensures few { length intake.new.buffer.now ≤ longest_bytes }
    {
        let found = self.header(alloc, intake, scopes, scratch)?;
        let stream = found.stream;
        let context = NextScope {
            class: stream.packet_context(),
            scope: Scope::PacketContext,
            end: found.end,
            alloc,
        };
        let first = scope_on_demand(&context, intake, &mut scratch.context, scopes)?;
        scratch.is_large = first > LONGEST_SMALL || scopes.spent() > MOST_SMALL;
        match judge_sizes(Begun { stream, first }, scopes.get(Scope::PacketContext))? {
            Want::Rest(begun) => Ok(Opening { begun, sizes: None }),
            Want::Whole(begun, sizes) => {
                let sizes = Some(sizes);
                Ok(Opening { begun, sizes })
            }
        }
    }
}

/// Removes all values from the scopes, and no header is known then. `scratch` gets the memory of those of the packet's
/// header and context.
fn forget(scopes: &mut Scopes, scratch: &mut PacketScratch<'_>)
    ensures scopes { scopes.new ≡ nothing_known }
    ensures known { scratch.new.known ≡ None }
{
    scratch.known = None;
    scopes.leave(Scope::PacketHeader, &mut scratch.header);
    leave_packet(scopes, &mut scratch.context, scratch.is_large);
}

/// Removes all values from the scopes but that of the packet's header. The memory of the packet's context stays in its
/// scope, unless it is large: then `context` gets it for the next one, so that there is never that of two.
#[inline(always)]
fn leave_packet(scopes: &mut Scopes, context: &mut Value, is_large: bool)
    ensures { scopes.new ≡ record nothing_known { packet_header = scopes.old.packet_header } }
{
    if is_large {
        scopes.leave(Scope::PacketContext, context);
    } else {
        scopes.hide(Scope::PacketContext);
    }
    if scopes.get(Scope::EventContext).is_some() || scopes.get(Scope::EventFields).is_some() {
        drop_body(scopes);
    }
    scopes.leave_record();
}

/// Gives back the memory of the values of an event record. They are there where it was not written as a text, so this
/// is kept out of the way.
#[cold]
#[inline(never)]
fn drop_body(scopes: &mut Scopes)
    ensures { scopes.new ≡ without_value (without_value scopes.old EventContext) EventFields }
{
    scopes.take(Scope::EventContext);
    scopes.take(Scope::EventFields);
}

/// Takes the remaining bytes of a packet with this opening, and gives the packet's sizes.
fn fill_sizes<S: Source>(
    intake: &mut Intake<'_, S>,
    opening: Opening<'_>,
) -> Result<Sizes, StreamFault>
    requires fits { FitsOpening (length intake.old.buffer.now) opening.sizes }
    requires few { length intake.old.buffer.now ≤ longest_bytes }
    requires possible { IfSome opening.sizes (λ sizes. are_possible sizes opening.begun.first ≡
        true) }
    ensures keeps { Keeps S.Source intake.old intake.new }
    ensures few { length intake.new.buffer.now ≤ longest_bytes + 1 }
    ensures takes { IsTrue (S.tells intake.old.source.now) →
        TakesSized (S.ending intake.old.source.now) opening.entry.begun.first intake.new.buffer.now
        (S.left intake.new.source.now) opening.entry.sizes result }
    ensures fitting { IfOk result
        (Fitting opening.entry.begun.first (length intake.new.buffer.now)) }
    ensures packet { IfOk result (λ sizes. sizes.packet ≡ 8 * length intake.new.buffer.now) }
{
    match opening.sizes {
        Some(sizes) => {
            fill_whole(intake, (sizes.packet / 8) as usize)?;
            Ok(sizes)
        }
        None => {
            let ending = fill_rest(intake)?;
            sizes_checked(None, None, ending, intake.as_slice(), opening.begun.first)
        }
    }
}
