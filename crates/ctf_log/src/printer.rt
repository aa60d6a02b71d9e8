//! Lines of items.

ghost use Rattle.std.specs.Prelude.{◌≡◌, ◌+◌, ◌++◌, ◌≤◌, ℕ, List, [], length, take, vec_len, IfNone, IfOk, IfSome, OnOk, OnErr};
ghost use Rattle.ctf_class.specs.declared.trace.TraceClass.{TraceClass};
ghost use Rattle.ctf_format.specs.Put.{IsPut};
ghost use Rattle.ctf_record_text.specs.Texts.{body_text, event_text};
ghost use Rattle.ctf_log.specs.Lines as lines;
ghost use Rattle.ctf_log.specs.Texts.{event_text_of, text_line};
ghost use Rattle.ctf_timestamp.specs.Stamps.{stamp_part};
ghost use Rattle.ctf_stream.specs.Shown.{event_of, gap_of, item_of, PartIsRight, IsOf};

use crate::gap::{GapWords, append_gap};
use ctf_class::Scope;
use ctf_decode::Value;
use ctf_format::{RecordScopes, put_bytes, put_packet_part, put_record, with_room};
use ctf_list::NoMemory;
use ctf_stream::{Event, EventText, Gap, Item};
use ctf_timestamp::{MOST_PART, Stamper, Style};
use std::alloc::Global;
use std::marker::Model;

/// How many bytes of a line are around the text of an event record at the most: the stamp and the newline.
const AROUND_TEXT: usize = MOST_PART + 1;

/// Makes the lines of items, one after the other, in memory that it keeps. Contracts see its style and the
/// text of the last line there.
#[derive(Drop)]
pub struct Printer {
    alloc: Global,
    stamper: Stamper,
    packet: Vec<u8>,
    line: Vec<u8>,
    end: usize,
}

impl Model for Printer {
    ghost use Rattle.std.specs.Prelude.{◌≤◌, length, take};
    ghost use Rattle.ctf_log.specs.Lines.{Printed};

    ghost Value = { Printed };

    ghost view = { λ printer. record {
      style = printer.stamper;
      text = take printer.end printer.line.items;
    } };

    ghost invariant = { λ printer. printer.end ≤ length printer.line.items };
}

impl Printer {
    /// A printer in this style that has printed nothing. No memory is taken.
    pub fn new(alloc: Global, style: Style) -> Printer
        ensures style { result.style ≡ style }
        ensures text { result.text ≡ [] }
    {
        let stamper = Stamper::new(style);
        Printer {
            alloc,
            stamper,
            packet: Vec::new(alloc),
            line: Vec::new(alloc),
            end: 0,
        }
    }

    /// Makes the line of an item, with its newline. `last` is the time of the event record with a time that
    /// was printed before, in nanoseconds since the epoch. At an error there is no text.
    pub fn print(&mut self, item: &Item<'_>, last: Option<i64>) -> Result<(), NoMemory>
        ensures line { (trace : TraceClass) (name : List ℕ) (end length : ℕ) →
            IsOf trace name item.now →
            OnOk result (self.new.text ≡
            lines.line_of self.old.style last name (item_of item.now end length)) }
        ensures refused { OnErr result (self.new.text ≡ []) }
        ensures style { self.new.style ≡ self.old.style }
    {
        match item {
            Item::Event(event) => self.print_event(event, last),
            Item::Discarded(gap) => self.print_gap(b"discarded ", b" events", gap),
            Item::Lost(gap) => self.print_gap(b"lost ", b" packets", gap),
        }
    }

    /// Makes the line of an event record, with its newline, out of the text of the event record. `last` is the time of
    /// the event record with a time that was printed before, in nanoseconds since the epoch. At an error there is no
    /// text.
    pub fn print_text(&mut self, event: &EventText<'_>, last: Option<i64>) -> Result<(), NoMemory>
        ensures line { OnOk result
            (self.new.text ≡ text_line self.old.style last event.now) }
        ensures refused { OnErr result (self.new.text ≡ []) }
        ensures style { self.new.style ≡ self.old.style }
    {
        self.end = 0;
        let Some(need) = event.text.len().checked_add(AROUND_TEXT) else {
            return Err(NoMemory);
        };
        with_room(need, &mut self.line, 0)?;
        self.end = put_text(&mut self.stamper, event, last, self.line.as_mut_slice(), 0);
        Ok(())
    }

    /// Makes the line of an event record, as `print_text` does, at an index of memory that another one has for lines,
    /// and gives the index after it. What is before the index is kept. `None` where the memory may be too short; then
    /// nothing is written.
    #[inline(always)]
    pub fn put_line(
        &mut self,
        event: &EventText<'_>,
        last: Option<i64>,
        memory: &mut [u8],
        at: usize,
    ) -> Option<usize>
        requires { at ≤ length memory.old }
        ensures line { IfSome result (λ end. take end memory.new ≡
            take at memory.old ++ text_line self.old.style last event.now) }
        ensures within { IfSome result (λ end. (at ≤ end) × (end ≤ length memory.new)) }
        ensures length { length memory.new ≡ length memory.old }
        ensures none { IfNone result (memory.new ≡ memory.old) }
        ensures style { self.new.style ≡ self.old.style }
        ensures text { self.new.text ≡ self.old.text }
    {
        let room = memory.len() - at;
        if room < AROUND_TEXT || event.text.len() > room - AROUND_TEXT {
            return None;
        }
        Some(put_text(&mut self.stamper, event, last, memory, at))
    }

    /// The text of the last line that was made in its memory.
    pub fn text(&self) -> &[u8]
        ensures { result.now ≡ self.now.text }
    {
        &self.line[..self.end]
    }

    /// Makes the line of an event record.
    fn print_event(&mut self, event: &Event<'_>, last: Option<i64>) -> Result<(), NoMemory>
        ensures line { PartIsRight event.now →
            OnOk result (self.new.text ≡
            lines.event_line self.old.style last (event_of event.now 0 0)) }
        ensures refused { OnErr result (self.new.text ≡ []) }
        ensures style { self.new.style ≡ self.old.style }
    {
        let stamper = &mut self.stamper;
        self.end = 0;
        self.end = put_event(stamper, &mut self.packet, event, last, &mut self.line)?;
        Ok(())
    }

    /// Makes the message about a gap.
    fn print_gap(&mut self, verb: &[u8], noun: &[u8], gap: &Gap<'_>) -> Result<(), NoMemory>
        ensures line { OnOk result
            (self.new.text ≡ lines.gap_line verb.now noun.now self.old.style gap.now.name.now
            (gap_of gap.now 0 0)) }
        ensures refused { OnErr result (self.new.text ≡ []) }
        ensures style { self.new.style ≡ self.old.style }
    {
        self.end = 0;
        self.line.clear();
        let words = GapWords { verb, noun };
        append_gap(self.alloc, &mut self.line, &mut self.stamper, &words, gap)?;
        self.end = self.line.len();
        Ok(())
    }
}

/// Writes the line of an event record at the beginning of a buffer, and gives its length. The text of the packet's
/// part is made in `packet` where the event record has none.
fn put_event(
    stamper: &mut Stamper,
    packet: &mut Vec<u8>,
    event: &Event<'_>,
    last: Option<i64>,
    line: &mut Vec<u8>,
) -> Result<usize, NoMemory>
    ensures put { let stamp = stamp_part stamper.old event.now.moment last in
        let piece = stamp ++ (event_text_of event.now ++ lines.newline) in
        IfOk result (IsPut line.old 0 piece line.new) }
    ensures style { stamper.new ≡ stamper.old }
{
    with_room(MOST_PART, line, 0)?;
    let end = stamper.put_part(event.moment, last, line.as_mut_slice(), 0);
    let end = put_after_stamp(event, packet, line, end)?;
    with_room(1, line, end)?;
    line[end] = b'\n';
    Ok(end + 1)
}

/// Writes the line of an event record, out of its text, at an index of a line that has room for it, and gives the index
/// after it.
#[inline(always)]
fn put_text(
    stamper: &mut Stamper,
    event: &EventText<'_>,
    last: Option<i64>,
    line: &mut [u8],
    at: usize,
) -> usize
    requires { at + length event.now.text.now + AROUND_TEXT ≤ length line.old }
    ensures text { take result line.new ≡
        take at line.old ++ text_line stamper.old last event.now }
    ensures within { result ≤ length line.new }
    ensures length { length line.new ≡ length line.old }
    ensures style { stamper.new ≡ stamper.old }
{
    let begin = stamper.put_part(event.moment, last, line, at);
    let after = put_bytes(event.text, line, begin);
    line[after] = b'\n';
    after + 1
}

/// Writes what follows the stamp of an event record. Mostly the text of its packet's part is there.
#[inline(always)]
fn put_after_stamp(
    event: &Event<'_>,
    packet: &mut Vec<u8>,
    line: &mut Vec<u8>,
    at: usize,
) -> Result<usize, NoMemory>
    requires { at ≤ vec_len line.old }
    ensures { IfOk result (IsPut line.old at (event_text_of event.now) line.new) }
{
    if let Some(part) = event.part {
        return put_body(event, part, line, at);
    }
    put_with_part(event, packet, line, at)
}

/// Writes what follows the stamp of an event record, and makes the text of the packet's part first.
#[inline(never)]
fn put_with_part(
    event: &Event<'_>,
    packet: &mut Vec<u8>,
    line: &mut Vec<u8>,
    at: usize,
) -> Result<usize, NoMemory>
    requires { at ≤ vec_len line.old }
    ensures { let piece = event_text (event_of event.now 0 0) in
        IfOk result (IsPut line.old at piece line.new) }
{
    let context = event.value(Scope::PacketContext);
    let shared = put_packet_part(event.stream.context_front(), context, packet, 0)?;
    put_body(event, &packet[..shared], line, at)
}

/// Writes the host, the name and the scopes of an event record.
#[inline(always)]
fn put_body(
    event: &Event<'_>,
    packet: &[u8],
    line: &mut Vec<u8>,
    at: usize,
) -> Result<usize, NoMemory>
    requires { at ≤ vec_len line.old }
    ensures { let piece = body_text packet.now (event_of event.now 0 0) in
        IfOk result (IsPut line.old at piece line.new) }
{
    let stream_context = event.value(Scope::StreamEventContext);
    let event_context = event.value(Scope::EventContext);
    let nothing = Value::Unsigned(0);
    let fields = match event.value(Scope::EventFields) {
        Some(fields) => fields,
        None => &nothing,
    };
    let scopes = RecordScopes {
        packet: &*packet,
        stream_context,
        event_context,
        fields,
    };
    put_record(event.stream, event.class, &scopes, line, at)
}

/// The line of an item, with its newline, in memory of its own. `last` is the time of the event record with a time that
/// was printed before, in nanoseconds since the epoch. It fails where an allocation fails.
pub fn line(
    alloc: Global,
    item: &Item<'_>,
    style: Style,
    last: Option<i64>,
) -> Result<Vec<u8>, NoMemory>
    ensures { (trace : TraceClass) (name : List ℕ) (end length : ℕ) → IsOf trace name item.now →
        IfOk result (λ text.
        text.items ≡ lines.line_of style last name (item_of item.now end length)) }
{
    let mut printer = Printer::new(alloc, style);
    printer.print(item, last)?;
    let text = Vec::from_slice(alloc, printer.text())?;
    Ok(text)
}
