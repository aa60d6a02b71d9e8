//! Event records whose text is made as they are read, or that are passed over.

ghost use Rattle.std.specs.Prelude.{◌≡◌, ◌<◌, ◌≤◌, ◌-◌, ◌/◌, ◌⊎◌, ℕ, List, [], false, take, vec_len, None, Some, option_copied, option_map, IfOk, IfSome, IsTrue, OnOk};
ghost use Rattle.ctf_clock.specs.declared.moment.Shift.{Shift};
ghost use Rattle.ctf_decode.specs.Known.{Known};
ghost use Rattle.ctf_decode.specs.Views.{form};
ghost use Rattle.ctf_packet.specs.Places.{IsTimed, record_there};
ghost use Rattle.ctf_packet.specs.Records.{bodied};
ghost use Rattle.ctf_packet.specs.Views.{PlansRecords, values_of, packet_values};
ghost use Rattle.ctf_record_text.specs.Headers.{TellsAt};
ghost use Rattle.ctf_record_text.specs.Making.{IsBefore, IsThere, Made, Makes, MakesValues, PutsRecord};

use crate::header::{Headers, ToldHead, told_head};
use crate::part::PacketPart;
use ctf_clock::Moment;
use ctf_decode::{MOST_VALUES, Scopes};
use ctf_format::{
    Content, KeptNumbers, Passed, Standing, pass_planned_record, put_front, put_planned_record,
};
use ctf_packet::{EventRecord, Head, RecordPlace, Scratch, StreamFault, next_head, put_body};
use std::alloc::Global;

/// The longest buffer, in bytes, that is kept for the next text, and the longest text that is held whatever its event
/// record has. So no trace makes a reader hold a long one for each of many streams, but for what the lines of a packet
/// share.
pub const LONGEST_KEPT: usize = 65_536;

/// How many bytes a longer text may have for each bit of its event record, or for each value, where it is held. So no
/// long label, name or host is held by each of many streams.
const MOST_EACH: u64 = 32;

/// The buffer of event records' texts, with what those of a packet share, and memory for the numbers that lengths and
/// tags ask for.
#[derive(Drop)]
pub struct LineBuffer {
    /// It begins with the text of the last event record that was written. The bytes after it are unspecified.
    pub bytes: Vec<u8>,
    /// The text of the packet in the lines of its event records.
    pub part: PacketPart,
    kept: KeptNumbers,
}

impl LineBuffer {
    /// A buffer without text. No memory is taken.
    pub fn new(alloc: Global) -> LineBuffer
        ensures part { result.part ≡ [] }
        ensures text { vec_len result.bytes ≡ 0 }
    {
        LineBuffer {
            bytes: Vec::new(alloc),
            part: PacketPart::new(alloc),
            kept: KeptNumbers::new(alloc),
        }
    }
}

/// An event record that was read.
#[derive(Clone, Copy)]
pub struct LineRecord<'a> {
    pub record: EventRecord<'a>,
    /// The index after its text, in bytes, where that was made. Else its values are in the scopes.
    pub text: Option<usize>,
}

/// The event record at a place (CTF 1.8.3, section 6), if it can be shown without its values. The values of the
/// packet's header and context are in `scopes`. The header is read by its plan, if it has bits. The text of the record
/// is at the beginning of `line` then: the host, the name, the part that the lines of the packet share, and the scopes.
///
/// `None` where the header is not one of those that are asked for, where `put_planned_record` gives no text, where the
/// record has a fault, where its text is longer than 64 KiB, than some 32 bytes for each of its bits and than as many
/// for each of its values, and where an allocation fails. The line is unspecified then.
#[inline(always)]
pub fn written_line<'a>(
    alloc: Global,
    at: &RecordPlace<'_, 'a>,
    scopes: &Scopes,
    headers: Headers,
    line: &mut LineBuffer,
) -> Option<LineRecord<'a>>
    ensures makes { (shift : Shift) → IsTimed shift at.now.packet.now → IfSome result (λ r.
        Made at.now.packet.now.stream.now (record_there shift (values_of scopes.now) at.now)
        line.old.part scopes.now line.new.bytes.items r.record r.text) }
    ensures part { line.new.part ≡ line.old.part }
    ensures within { IfSome result (λ r. r.record.end ≤ at.now.packet.now.content) }
    ensures forward { IfSome result (λ r. at.now.place < r.record.end) }
    ensures text { IfSome result (λ r. IfSome r.text (λ end. end ≤ vec_len line.new.bytes)) }
{
    keep_short(alloc, line);
    let told = told_head(at, headers)?;
    let standing = put_by_plan(at, told, scopes, line)?;
    Some(with_text(told.head, standing))
}

/// The event record at a place (CTF 1.8.3, section 6), of which `written_line` made no text. The values of the packet's
/// header and context are in `scopes`. Where the header alone was in the way, the text of the record is
/// at the start of `line` then, as `written_line` makes it. Elsewhere the record's values are in `scopes`. The memory
/// of `scratch` is used.
///
/// An error is the first fault of the record: F6 to F11, or `NoMemory`.
#[inline(never)]
pub fn next_line<'a>(
    alloc: Global,
    at: &RecordPlace<'_, 'a>,
    scratch: &mut Scratch,
    scopes: &mut Scopes,
    line: &mut LineBuffer,
) -> Result<LineRecord<'a>, StreamFault>
    ensures makes { (shift : Shift) → IsTimed shift at.now.packet.now →
        Makes at.now.packet.now.stream.now (record_there shift (values_of scopes.old) at.now)
        line.old.part scopes.new line.new.bytes.items result }
    ensures part { line.new.part ≡ line.old.part }
    ensures within { IfOk result (λ r. r.record.end ≤ at.now.packet.now.content) }
    ensures forward { IfOk result (λ r. at.now.place < r.record.end) }
    ensures packet { OnOk result
        (packet_values (values_of scopes.new) ≡ packet_values (values_of scopes.old)) }
    ensures text { IfOk result (λ r. IfSome r.text (λ end. end ≤ vec_len line.new.bytes)) }
    ensures short { IfOk result (λ r. r.text ≡ None → vec_len line.new.bytes ≤ LONGEST_KEPT) }
{
    // A text that failed late keeps no long buffer beside the values.
    keep_short(alloc, line);
    let head = next_head(alloc, at, scratch, scopes)?;
    // After a header that is read by its plan, a text was tried before.
    if !is_planned(at) {
        let told = ToldHead {
            head,
            spent: scopes.spent(),
        };
        if let Some(standing) = put_by_plan(at, told, &*scopes, line) {
            return Ok(with_text(head, standing));
        }
        keep_short(alloc, line);
    }
    let record = read_values(alloc, at, head, scratch, scopes)?;
    Ok(LineRecord { record, text: None })
}

/// Whether the header of the event record at a place is read by its plan.
#[inline(never)]
fn is_planned(at: &RecordPlace<'_, '_>) -> bool {
    told_either(at).is_some()
}

/// The event record at a place (CTF 1.8.3, section 6), if it is before `begin`, in nanoseconds since the epoch, and its
/// header and scopes have plans: by these it is gone over, without a text and without its values. The values of the
/// packet's header and context are in `scopes`.
///
/// `None` elsewhere, and where the header has a fault, the record no bits, or `pass_planned_record` gives none. Memory
/// of `line` is used for numbers that are kept; its text stays.
#[inline(always)]
pub fn passed_record<'a>(
    at: &RecordPlace<'_, 'a>,
    begin: i64,
    scopes: &Scopes,
    line: &mut LineBuffer,
) -> Option<EventRecord<'a>>
    ensures stands { (shift : Shift) → IsTimed shift at.now.packet.now →
        let stands = record_there shift (values_of scopes.now) at.now in
        IfSome result (IsThere at.now.packet.now.stream.now stands scopes.now) }
    ensures before { IfSome result (λ r. IsBefore begin r.clock) }
    ensures text { line.new.bytes ≡ line.old.bytes }
    ensures part { line.new.part ≡ line.old.part }
    ensures within { IfSome result (λ r. r.end ≤ at.now.packet.now.content) }
    ensures forward { IfSome result (λ r. at.now.place < r.end) }
{
    let told = told_either(at)?;
    if !is_before(told.head.clock, begin) {
        return None;
    }
    let end = end_by_plan(at, told, scopes, &mut line.kept)?;
    Some(EventRecord {
        event: told.head.event,
        clock: told.head.clock,
        end,
    })
}

/// The header of the event record at a place by its plan, a usual one or another.
#[inline(always)]
fn told_either<'a>(at: &RecordPlace<'_, 'a>) -> Option<ToldHead<'a>>
    ensures tells { IfSome result (TellsAt at.now) }
    ensures plan { IfSome result (λ t. PlansRecords at.now.packet.now.stream.now t.head) }
    ensures within { IfSome result (λ t. t.head.end ≤ at.now.packet.now.content) }
    ensures few { IfSome result (λ t. t.spent ≤ MOST_VALUES) }
{
    match told_head(at, Headers::Usual) {
        Some(told) => Some(told),
        None => told_head(at, Headers::Unusual),
    }
}

/// Whether a clock is before a time, in nanoseconds since the epoch.
#[inline(always)]
fn is_before(clock: Option<Moment>, begin: i64) -> bool
    ensures before { IsTrue result → IsBefore begin clock }
    ensures other { result ≡ false → IsBefore begin clock → ⊥ }
{
    match clock {
        Some(moment) => moment.time < begin,
        None => false,
    }
}

/// Where the event record at a place ends, by the plan alone.
#[inline(always)]
fn end_by_plan<'a>(
    at: &RecordPlace<'_, 'a>,
    told: ToldHead<'a>,
    scopes: &Scopes,
    kept: &mut KeptNumbers,
) -> Option<u64>
    requires plan { PlansRecords at.now.packet.now.stream.now told.head }
    requires start { told.head.end ≤ at.now.packet.now.content }
    requires few { told.spent ≤ MOST_VALUES }
    ensures passes { IfSome result (λ end. (part : List ℕ) → (text : List ℕ) ×
        PutsRecord scopes.now at.now told.entry part end text) }
    ensures within { IfSome result (λ end. end ≤ at.now.packet.now.content) }
    ensures forward { IfSome result (λ end. at.now.place < end) }
{
    let content = Content {
        bytes: at.bytes,
        end: at.packet.content,
    };
    let from = Passed {
        place: told.head.end,
        spent: told.spent,
    };
    if kept.begin(told.head.plan, scopes).is_err() {
        return None;
    }
    let all = pass_planned_record(told.head.plan, &content, from, kept)?;
    if all.place <= at.place {
        return None;
    }
    Some(all.place)
}

/// The event record of a header whose text was written.
#[inline(always)]
fn with_text<'a>(head: Head<'a>, standing: Standing) -> LineRecord<'a>
    ensures record { result.record ≡
        record { event = head.entry.event; clock = head.entry.clock; end = standing.place } }
    ensures text { result.text ≡ Some standing.end }
{
    LineRecord {
        record: EventRecord {
            event: head.event,
            clock: head.clock,
            end: standing.place,
        },
        text: Some(standing.end),
    }
}

/// Gives the memory of a long buffer back.
#[inline(always)]
fn keep_short(alloc: Global, line: &mut LineBuffer)
    ensures part { line.new.part ≡ line.old.part }
    ensures short { vec_len line.new.bytes ≤ LONGEST_KEPT }
{
    if line.bytes.len() > LONGEST_KEPT {
        line.bytes = Vec::new(alloc);
    }
}

/// The event record of a header, with its values.
fn read_values<'a>(
    alloc: Global,
    at: &RecordPlace<'_, 'a>,
    head: Head<'a>,
    scratch: &mut Scratch,
    scopes: &mut Scopes,
) -> Result<EventRecord<'a>, StreamFault>
    requires start { head.end ≤ at.now.packet.now.content }
    requires after { at.now.place ≤ head.end }
    ensures values { let stream = at.now.packet.now.stream.now in
        let event = head.entry.event.now in
        MakesValues stream head.entry (bodied (option_map form stream.event_context)
        (option_map form event.context) (form event.fields) at.now.bytes.now
        at.now.packet.now.content (values_of scopes.old) head.entry.end scopes.old.spent)
        at.now.place scopes.new result }
    ensures within { IfOk result (λ r. r.end ≤ at.now.packet.now.content) }
    ensures forward { IfOk result (λ r. at.now.place < r.end) }
    ensures packet { OnOk result
        (packet_values (values_of scopes.new) ≡ packet_values (values_of scopes.old)) }
{
    let event = head.event;
    let end = put_body(alloc, at, &head, scratch, scopes)?;
    if end == at.place {
        return Err(StreamFault::EmptyEvent);
    }
    scratch.note(end - at.place, scopes.spent());
    Ok(EventRecord {
        event,
        clock: head.clock,
        end,
    })
}

/// Writes the text of the event record at a place at the beginning of a line, by the plan of such records.
#[inline(always)]
fn put_by_plan<'a>(
    at: &RecordPlace<'_, 'a>,
    told: ToldHead<'a>,
    scopes: &Scopes,
    line: &mut LineBuffer,
) -> Option<Standing>
    requires plan { PlansRecords at.now.packet.now.stream.now told.head }
    requires start { told.head.end ≤ at.now.packet.now.content }
    requires few { told.spent ≤ MOST_VALUES }
    ensures puts { IfSome result (λ s. PutsRecord scopes.now at.now told.entry line.old.part
        s.place (take s.end line.new.bytes.items)) }
    ensures part { line.new.part ≡ line.old.part }
    ensures within { IfSome result (λ s. s.place ≤ at.now.packet.now.content) }
    ensures forward { IfSome result (λ s. at.now.place < s.place) }
    ensures held { IfSome result (λ s. s.end ≤ vec_len line.new.bytes) }
{
    let content = Content {
        bytes: at.bytes,
        end: at.packet.content,
    };
    let plan = told.head.plan;
    if plan.runs.is_empty() {
        return None;
    }
    let part = line.part.as_slice();
    let front = put_front(&told.head.event.heading, part, &mut line.bytes, 0).ok()?;
    let from = Standing {
        place: told.head.end,
        spent: told.spent,
        end: front,
    };
    if line.kept.begin(plan, scopes).is_err() {
        return None;
    }
    let all = put_planned_record(plan, &content, from, &mut line.kept, &mut line.bytes)?;
    if !is_held(at, all) {
        return None;
    }
    Some(all)
}

/// Whether the text that was written of the event record at a place is held: the record has bits and, where the text is
/// long, many bits or many values.
#[inline(always)]
fn is_held(at: &RecordPlace<'_, '_>, all: Standing) -> bool
    ensures some { IsTrue result → at.now.place < all.place }
    ensures short { IsTrue result → LONGEST_KEPT < all.end →
        (all.end / MOST_EACH ≤ all.place - at.now.place) ⊎ (all.end / MOST_EACH ≤ all.spent) }
{
    if all.place <= at.place {
        return false;
    }
    let least = all.end as u64 / MOST_EACH;
    all.end <= LONGEST_KEPT || least <= all.place - at.place || least <= all.spent
}
