//! The part of a line that the event records of a packet share.

ghost use Rattle.std.specs.Prelude.{◌≤◌, map, vec_len, option_map, option_copied, IfOk};
ghost use Rattle.ctf_class.specs.Fronts.{members_of};
ghost use Rattle.ctf_decode.specs.Values.{vals_of};
ghost use Rattle.ctf_decode.specs.Views.{val};
ghost use Rattle.ctf_format.specs.Lines as lines;
ghost use Rattle.ctf_format.specs.Put.{IsPut};
ghost use Rattle.ctf_format.specs.Rows.{row};

use crate::mark::put_end;
use crate::value::put_member;
use ctf_class::FrontClass;
use ctf_decode::{Value, members_in};
use ctf_list::NoMemory;

/// Writes a packet context (CTF 1.8.3, section 5.2) without the members that say something of the packet
/// alone, at an index of a buffer, in bytes, and gives the index after it: nothing where no member is left,
/// and where there is no class or no value. What is before the index is kept, and the buffer grows where
/// it has no room.
///
/// It fails where an allocation fails, and the buffer is then unspecified.
pub fn put_packet_part(
    class: Option<&FrontClass>,
    value: Option<&Value>,
    buffer: &mut Vec<u8>,
    at: usize,
) -> Result<usize, NoMemory>
    requires { at ≤ vec_len buffer.old }
    ensures { let shown = option_map val (option_copied value.entry) in
        let piece = lines.packet_part (option_copied class.entry) shown in
        IfOk result (IsPut buffer.old at piece buffer.new) }
{
    match class {
        None => Ok(at),
        Some(class) => match value {
            None => Ok(at),
            Some(value) => put_context(class, members_in(value), buffer, at),
        },
    }
}

/// Writes the members that are shown, in braces.
fn put_context(
    class: &FrontClass,
    values: &[Value],
    buffer: &mut Vec<u8>,
    at: usize,
) -> Result<usize, NoMemory>
    requires { at ≤ vec_len buffer.old }
    ensures { let members = members_of class.now in let vs = vals_of (map val values.now) in
        let piece = lines.context_text (lines.shown_members members vs) in
        IfOk result (IsPut buffer.old at piece buffer.new) }
{
    let end = put_shown(class, values, buffer, at)?;
    if end == at {
        return Ok(at);
    }
    put_end(b'}', buffer, end)
}

/// Writes the members that are shown, the first after `{`.
fn put_shown(
    class: &FrontClass,
    values: &[Value],
    buffer: &mut Vec<u8>,
    at: usize,
) -> Result<usize, NoMemory>
    requires { at ≤ vec_len buffer.old }
    ensures { let members = members_of class.now in let vs = vals_of (map val values.now) in
        let piece = row 123 (lines.shown_members members vs) in
        IfOk result (IsPut buffer.old at piece buffer.new) }
{
    let mut end = at;
    let mut lead = b'{';
    let members = class.members();
    let hidden = class.hidden();
    let count = hidden.len().min(values.len());
    for i in class.first_shown()..count {
        if hidden[i] {
            continue;
        }
        end = put_member(lead, &members[i], &values[i], buffer, end)?;
        lead = b',';
    }
    Ok(end)
}
