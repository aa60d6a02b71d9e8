//! Texts by themselves.

ghost use Rattle.std.specs.Prelude.{◌≡◌, option_map, option_copied, IfOk};
ghost use Rattle.ctf_decode.specs.Views.{val};
ghost use Rattle.ctf_format.specs.Lines as lines;
ghost use Rattle.ctf_format.specs.Texts as texts;

use crate::packet::put_packet_part;
use crate::record::{RecordScopes, put_record};
use crate::value::put_value;
use ctf_class::{Class, EventClass, FrontClass, StreamClass};
use ctf_decode::Value;
use ctf_list::NoMemory;
use std::alloc::Global;

/// The text of a value of a class (CTF 1.8.3, section 4). A value of another class, or a part of one, gives
/// no text. It fails where an allocation fails.
pub fn value_text(alloc: Global, class: &Class, value: &Value) -> Result<Vec<u8>, NoMemory>
    ensures { IfOk result (λ text. text.items ≡ texts.value_text class.now (val value.now)) }
{
    let mut text = Vec::new(alloc);
    let end = put_value(class, value, &mut text, 0)?;
    text.truncate(end);
    Ok(text)
}

/// A packet context as it is shown in the lines of the packet's event records: without the members that say
/// something of the packet alone (CTF 1.8.3, section 5.2). Empty where no member is left, and where there is no
/// class or no value. It fails where an allocation fails.
pub fn packet_part(
    alloc: Global,
    class: Option<&FrontClass>,
    value: Option<&Value>,
) -> Result<Vec<u8>, NoMemory>
    ensures { IfOk result (λ text.
        text.items ≡ lines.packet_part (option_copied class.entry)
        (option_map val (option_copied value.entry))) }
{
    let mut text = Vec::new(alloc);
    let end = put_packet_part(class, value, &mut text, 0)?;
    text.truncate(end);
    Ok(text)
}

/// An event record's line after its stamp: the host, the name and the scopes of an event record of these classes.
/// It fails where an allocation fails.
pub fn record_text(
    alloc: Global,
    stream: &StreamClass,
    event: &EventClass,
    scopes: &RecordScopes<'_>,
) -> Result<Vec<u8>, NoMemory>
    ensures { let shown = scopes.now in IfOk result (λ text.
        text.items ≡ lines.record_text shown.packet.now stream.now event.now
        (option_map val (option_copied shown.stream_context))
        (option_map val (option_copied shown.event_context))
        (val shown.fields.now)) }
{
    let mut text = Vec::new(alloc);
    let end = put_record(stream, event, scopes, &mut text, 0)?;
    text.truncate(end);
    Ok(text)
}
