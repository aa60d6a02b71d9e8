//! What is in an event record's line after its stamp.

ghost use Rattle.std.specs.Prelude.{◌++◌, ◌≤◌, vec_len, codes, option_map, option_copied, Some, IfOk};
ghost use Rattle.std.specs.List.{flat_map};
ghost use Rattle.ctf_class.specs.HostAndName.{heading_text};
ghost use Rattle.ctf_decode.specs.Views.{val};
ghost use Rattle.ctf_format.specs.Lines as lines;
ghost use Rattle.ctf_format.specs.Put.{IsPut};

use crate::mark::{put_lead, put_short_bytes};
use crate::room::with_room;
use crate::value::put_value;
use ctf_class::{Class, EventClass, Heading, PREPARED_HEAD, PreparedText, StreamClass};
use ctf_decode::Value;
use ctf_list::NoMemory;

/// What an event record's line shows of its scopes (CTF 1.8.3, section 6): the packet context as a text, and the values
/// of the others.
#[derive(Clone, Copy)]
pub struct RecordScopes<'a> {
    /// The part that the packet's event records share, as `put_packet_part` writes it.
    pub packet: &'a [u8],
    pub stream_context: Option<&'a Value>,
    pub event_context: Option<&'a Value>,
    pub fields: &'a Value,
}

/// Writes the host, the name and the scopes of an event record of these classes (CTF 1.8.3, section 6) at an index of a
/// buffer, in bytes, and gives the index after them. What is before the index is kept, and the buffer grows where it
/// has no room.
///
/// It fails where an allocation fails, and the buffer is then an unspecified buffer.
#[inline(always)]
pub fn put_record(
    stream: &StreamClass,
    event: &EventClass,
    scopes: &RecordScopes<'_>,
    buffer: &mut Vec<u8>,
    at: usize,
) -> Result<usize, NoMemory>
    requires { at ≤ vec_len buffer.old }
    ensures { let shown = scopes.now in
        let stream_context = option_map val (option_copied shown.stream_context) in
        let event_context = option_map val (option_copied shown.event_context) in
        let piece = lines.record_text shown.packet.now stream.now event.now stream_context
        event_context (val shown.fields.now) in
        IfOk result (IsPut buffer.old at piece buffer.new) }
{
    let end = put_front(&event.heading, scopes.packet, buffer, at)?;
    let end = put_scope(stream.event_context(), scopes.stream_context, buffer, end)?;
    let end = put_scope(event.context(), scopes.event_context, buffer, end)?;
    put_value(event.fields(), scopes.fields, buffer, end)
}

/// Writes what is before the scopes of an event record at an index of a buffer, and gives the index after it: the
/// host, the name and, with a comma after it, the part that the packet's event records share. What is before the index
/// is kept, and the buffer grows where it has no room.
///
/// It fails where an allocation fails, and the buffer is then unspecified.
#[inline(always)]
pub fn put_front(
    heading: &Heading,
    packet: &[u8],
    buffer: &mut Vec<u8>,
    at: usize,
) -> Result<usize, NoMemory>
    requires { at ≤ vec_len buffer.old }
    ensures { let shared = flat_map (λ text. text ++ codes ", ") (lines.if_shown packet.now) in
        IfOk result (IsPut buffer.old at (heading_text heading.now ++ shared) buffer.new) }
{
    let end = put_heading(heading, buffer, at)?;
    put_shared_part(packet, buffer, end)
}

/// Writes the host and the name.
#[inline(always)]
fn put_heading(heading: &Heading, buffer: &mut Vec<u8>, at: usize) -> Result<usize, NoMemory>
    requires { at ≤ vec_len buffer.old }
    ensures { IfOk result (IsPut buffer.old at (heading_text heading.now) buffer.new) }
{
    match heading.ready() {
        Some(ready) => put_ready(ready, buffer, at),
        None => put_apart(heading, buffer, at),
    }
}

/// Writes a long host, and the name after it, out of the way of usual lines.
#[cold]
#[inline(never)]
fn put_apart(heading: &Heading, buffer: &mut Vec<u8>, at: usize) -> Result<usize, NoMemory>
    requires { at ≤ vec_len buffer.old }
    ensures { IfOk result (IsPut buffer.old at (heading_text heading.now) buffer.new) }
{
    let texts = heading.texts();
    let end = match texts.host {
        Some(host) => put_ready(host, buffer, at)?,
        None => at,
    };
    put_ready(texts.rest, buffer, end)
}

/// Writes a text that was made ready.
#[inline(always)]
fn put_ready(ready: &PreparedText, buffer: &mut Vec<u8>, at: usize) -> Result<usize, NoMemory>
    requires { at ≤ vec_len buffer.old }
    ensures { IfOk result (IsPut buffer.old at ready.now buffer.new) }
{
    with_room(ready.len() + PREPARED_HEAD, buffer, at)?;
    Ok(ready.put(buffer.as_mut_slice(), at))
}

/// Writes a text, if it is not empty, and a comma after it.
#[inline(always)]
fn put_shared_part(bytes: &[u8], buffer: &mut Vec<u8>, at: usize) -> Result<usize, NoMemory>
    requires { at ≤ vec_len buffer.old }
    ensures { let piece = flat_map (λ text. text ++ codes ", ") (lines.if_shown bytes.now) in
        IfOk result (IsPut buffer.old at piece buffer.new) }
{
    if bytes.is_empty() {
        return Ok(at);
    }
    with_room(bytes.len() + 2, buffer, at)?;
    let line = buffer.as_mut_slice();
    let end = put_short_bytes(bytes, line, at);
    Ok(put_lead(b',', line, end))
}

/// Writes a scope, if it has a class and a value, and a comma after it.
#[inline(always)]
fn put_scope(
    class: Option<&Class>,
    value: Option<&Value>,
    buffer: &mut Vec<u8>,
    at: usize,
) -> Result<usize, NoMemory>
    requires { at ≤ vec_len buffer.old }
    ensures { let shown = option_map val (option_copied value.entry) in
        let texts = lines.scope_texts (option_copied class.entry) shown in
        let piece = flat_map (λ text. text ++ codes ", ") texts in
        IfOk result (IsPut buffer.old at piece buffer.new) }
{
    match class {
        None => Ok(at),
        Some(class) => match value {
            None => Ok(at),
            Some(value) => put_followed(class, value, buffer, at),
        },
    }
}

/// Writes a value and a comma after it.
#[inline(always)]
fn put_followed(
    class: &Class,
    value: &Value,
    buffer: &mut Vec<u8>,
    at: usize,
) -> Result<usize, NoMemory>
    requires { at ≤ vec_len buffer.old }
    ensures { let texts = lines.scope_texts (Some class.now) (Some (val value.now)) in
        let piece = flat_map (λ text. text ++ codes ", ") texts in
        IfOk result (IsPut buffer.old at piece buffer.new) }
{
    let end = put_value(class, value, buffer, at)?;
    put_comma(buffer, end)
}

/// Writes a comma and a space at an index of a buffer, and gives the index after them. What is before the index is
/// kept, and the buffer grows where it has no room. It fails where an allocation fails, and the buffer is then
/// unspecified.
#[inline(always)]
fn put_comma(buffer: &mut Vec<u8>, at: usize) -> Result<usize, NoMemory>
    requires { at ≤ vec_len buffer.old }
    ensures { IfOk result (IsPut buffer.old at (codes ", ") buffer.new) }
{
    with_room(2, buffer, at)?;
    Ok(put_lead(b',', buffer.as_mut_slice(), at))
}
