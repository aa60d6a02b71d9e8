//! Values of classes.

ghost use Rattle.std.specs.Prelude.{◌≡◌, ◌+◌, ◌++◌, ◌∷◌, ◌≤◌, length, take, map, vec_len, slice_get, IfOk};
ghost use Rattle.ctf_decode.specs.Values.{vals_of};
ghost use Rattle.ctf_decode.specs.Fields as fields;
ghost use Rattle.ctf_decode.specs.Views.{val};
ghost use Rattle.ctf_format.specs.Put.{IsPut};
ghost use Rattle.ctf_format.specs.Rows.{row, enclosed};
ghost use Rattle.ctf_format.specs.Texts as texts;
ghost use Rattle.ctf_format.specs.Texts.{member_part, member_texts, element_texts, part_text, option_text};

use crate::element::{ElementLead, put_index};
use crate::label::put_labelled;
use crate::mark::{put_end, put_nothing, put_ready};
use crate::number::{put_signed_number, put_unsigned_number};
use crate::room::with_room;
use crate::text::put_quoted;
use ctf_class::{Class, Integer, Kind, LONGEST_NUMBER, Labels, Member};
use ctf_decode::{Value, choice_in, elements_in, members_in};
use ctf_list::NoMemory;

/// Writes the text of a value of a class (CTF 1.8.3, section 4) at an index of a buffer, in bytes, and gives
/// the index after it. What is before the index is kept, and the buffer grows where it has no room. A
/// value of another class, or a part of one, gives no text.
///
/// It fails where an allocation fails, and the buffer is then unspecified.
#[inline(always)]
pub fn put_value(
    class: &Class,
    value: &Value,
    buffer: &mut Vec<u8>,
    at: usize,
) -> Result<usize, NoMemory>
    requires { at ≤ vec_len buffer.old }
    ensures { let piece = texts.value_text class.now (val value.now) in
        IfOk result (IsPut buffer.old at piece buffer.new) }
{
    match &class.kind {
        Kind::Structure { members } => {
            put_structure(members.as_slice(), members_in(value), buffer, at)
        }
        _ => {
            with_room(LONGEST_NUMBER, buffer, at)?;
            put_field(class, value, buffer, at)
        }
    }
}

/// Writes a part of a value, where there is room for a number. Mostly it is an integer, or else a string.
#[cycle(texts)]
#[inline(always)]
fn put_part(
    class: &Class,
    value: &Value,
    buffer: &mut Vec<u8>,
    at: usize,
) -> Result<usize, NoMemory>
    requires { at + LONGEST_NUMBER ≤ vec_len buffer.old }
    ensures { let piece = texts.value_text class.now (val value.now) in
        IfOk result (IsPut buffer.old at piece buffer.new) }
{
    if let Kind::Integer(integer) = &class.kind {
        return Ok(put_integer(integer, value, buffer.as_mut_slice(), at));
    }
    if let Kind::String = &class.kind {
        return put_string(value, buffer, at);
    }
    put_field(class, value, buffer, at)
}

/// Writes a part that is no integer. Few classes are told apart at once, so that no table of jumps is made, which a
/// processor foresees worse than comparisons.
#[cycle(texts)]
#[inline(never)]
fn put_field(
    class: &Class,
    value: &Value,
    buffer: &mut Vec<u8>,
    at: usize,
) -> Result<usize, NoMemory>
    requires { at + LONGEST_NUMBER ≤ vec_len buffer.old }
    ensures { let piece = texts.value_text class.now (val value.now) in
        IfOk result (IsPut buffer.old at piece buffer.new) }
{
    if let Kind::Text { .. } = &class.kind {
        return put_string(value, buffer, at);
    }
    if let Kind::Enumeration { container, labels } = &class.kind {
        return put_enumeration(container, labels.get(), value, buffer, at);
    }
    put_any(class, value, buffer, at)
}

/// Writes a value of any class. What it calls is not inlined, so that it saves nothing before it knows the class.
#[cycle(texts)]
#[inline(never)]
fn put_any(class: &Class, value: &Value, buffer: &mut Vec<u8>, at: usize) -> Result<usize, NoMemory>
    requires { at + LONGEST_NUMBER ≤ vec_len buffer.old }
    ensures { let piece = texts.value_text class.now (val value.now) in
        IfOk result (IsPut buffer.old at piece buffer.new) }
{
    match &class.kind {
        Kind::Integer(integer) => Ok(put_integer(integer, value, buffer.as_mut_slice(), at)),
        Kind::Enumeration { container, labels } => {
            put_enumeration(container, labels.get(), value, buffer, at)
        }
        Kind::String => put_string(value, buffer, at),
        Kind::Structure { members } => {
            put_structure(members.as_slice(), members_in(value), buffer, at)
        }
        Kind::Variant { options, .. } => put_choice(options.as_slice(), value, buffer, at),
        Kind::Array { element, .. } => put_array(element.get(), elements_in(value), buffer, at),
        Kind::Text { .. } => put_string(value, buffer, at),
    }
}

/// Writes an integer.
#[inline(always)]
fn put_integer(integer: &Integer, value: &Value, line: &mut [u8], at: usize) -> usize
    requires { at + LONGEST_NUMBER ≤ length line.old }
    ensures text { take result line.new ≡
        take at line.old ++ texts.integer_text integer.now (val value.now) }
    ensures near { result ≤ at + LONGEST_NUMBER }
{
    if let Value::Unsigned(number) = value {
        return put_unsigned_number(integer, *number, line, at);
    }
    if let Value::Signed(number) = value {
        return put_signed_number(integer, *number, line, at);
    }
    at
}

/// Writes an enumeration.
#[inline(never)]
fn put_enumeration(
    container: &Integer,
    labels: &Labels,
    value: &Value,
    buffer: &mut Vec<u8>,
    at: usize,
) -> Result<usize, NoMemory>
    requires { at ≤ vec_len buffer.old }
    ensures { let piece = texts.enumeration_text container.now labels.now (val value.now) in
        IfOk result (IsPut buffer.old at piece buffer.new) }
{
    match value {
        Value::Label(number) => put_labelled(container, labels, *number, buffer, at),
        Value::Unsigned(_) => Ok(at),
        Value::Signed(_) => Ok(at),
        Value::Text(_) => Ok(at),
        Value::Group(_) => Ok(at),
        Value::List(_) => Ok(at),
        Value::Choice(_, _) => Ok(at),
    }
}

/// Writes a string or an array of characters.
fn put_string(value: &Value, buffer: &mut Vec<u8>, at: usize) -> Result<usize, NoMemory>
    requires { at ≤ vec_len buffer.old }
    ensures { IfOk result (IsPut buffer.old at (texts.string_text (val value.now)) buffer.new) }
{
    if let Value::Text(bytes) = value {
        return put_quoted(bytes.as_slice(), buffer, at);
    }
    Ok(at)
}

/// Writes a structure.
#[cycle(texts)]
#[inline(never)]
fn put_structure(
    members: &[Member],
    values: &[Value],
    buffer: &mut Vec<u8>,
    at: usize,
) -> Result<usize, NoMemory>
    requires { at ≤ vec_len buffer.old }
    ensures { let vs = vals_of (map val values.now) in
        let piece = enclosed 123 125 (member_texts (map member_part members.now) vs) in
        IfOk result (IsPut buffer.old at piece buffer.new) }
{
    if members.is_empty() {
        return put_nothing(b'{', b'}', buffer, at);
    }
    if values.is_empty() {
        return put_nothing(b'{', b'}', buffer, at);
    }
    let end = put_members(members, values, buffer, at)?;
    put_end(b'}', buffer, end)
}

/// Writes members, the first after `{`.
#[cycle(texts)]
fn put_members(
    members: &[Member],
    values: &[Value],
    buffer: &mut Vec<u8>,
    at: usize,
) -> Result<usize, NoMemory>
    requires { at ≤ vec_len buffer.old }
    ensures { let vs = vals_of (map val values.now) in
        let piece = row 123 (member_texts (map member_part members.now) vs) in
        IfOk result (IsPut buffer.old at piece buffer.new) }
{
    let mut end = at;
    let mut lead = b'{';
    for (i, member) in members.iter().enumerate() {
        if i >= values.len() {
            return Ok(end);
        }
        end = put_member(lead, member, &values[i], buffer, end)?;
        lead = b',';
    }
    Ok(end)
}

/// Writes a member after a mark.
#[cycle(texts)]
#[inline(always)]
pub fn put_member(
    lead: u8,
    member: &Member,
    value: &Value,
    buffer: &mut Vec<u8>,
    at: usize,
) -> Result<usize, NoMemory>
    requires { at ≤ vec_len buffer.old }
    ensures { let piece = lead ∷ 32 ∷ part_text (member_part member.now) (val value.now) in
        IfOk result (IsPut buffer.old at piece buffer.new) }
{
    let begin = put_ready(lead, member.name.ready(), LONGEST_NUMBER, buffer, at)?;
    put_part(&member.class, value, buffer, begin)
}

/// Writes the option that was chosen.
#[cycle(texts)]
#[inline(never)]
fn put_choice(
    options: &[Member],
    value: &Value,
    buffer: &mut Vec<u8>,
    at: usize,
) -> Result<usize, NoMemory>
    requires { at ≤ vec_len buffer.old }
    ensures { let choice = fields.choice_in (val value.now) in
        let piece = texts.chosen_text (map member_part options.now) choice in
        IfOk result (IsPut buffer.old at piece buffer.new) }
{
    match choice_in(value) {
        None => Ok(at),
        Some((i, inner)) => put_option(options, i, inner, buffer, at),
    }
}

/// Writes an option.
#[cycle(texts)]
fn put_option(
    options: &[Member],
    i: usize,
    value: &Value,
    buffer: &mut Vec<u8>,
    at: usize,
) -> Result<usize, NoMemory>
    requires { at ≤ vec_len buffer.old }
    ensures { let option = slice_get (map member_part options.now) i in
        IfOk result (IsPut buffer.old at (option_text option (val value.now)) buffer.new) }
{
    if i >= options.len() {
        return Ok(at);
    }
    let end = put_member(b'{', &options[i], value, buffer, at)?;
    put_end(b'}', buffer, end)
}

/// Writes an array.
#[cycle(texts)]
#[inline(never)]
fn put_array(
    element: &Class,
    values: &[Value],
    buffer: &mut Vec<u8>,
    at: usize,
) -> Result<usize, NoMemory>
    requires { at ≤ vec_len buffer.old }
    ensures { let shown = texts.value_text element.now in let vs = vals_of (map val values.now) in
        let piece = enclosed 91 93 (element_texts shown 0 vs) in
        IfOk result (IsPut buffer.old at piece buffer.new) }
{
    if values.is_empty() {
        return put_nothing(b'[', b']', buffer, at);
    }
    let end = put_elements(element, values, buffer, at)?;
    put_end(b']', buffer, end)
}

/// Writes elements, the first after `[`.
#[cycle(texts)]
fn put_elements(
    element: &Class,
    values: &[Value],
    buffer: &mut Vec<u8>,
    at: usize,
) -> Result<usize, NoMemory>
    requires { at ≤ vec_len buffer.old }
    ensures { let shown = texts.value_text element.now in let vs = vals_of (map val values.now) in
        let piece = row 91 (element_texts shown 0 vs) in
        IfOk result (IsPut buffer.old at piece buffer.new) }
{
    let mut end = at;
    let mut mark = b'[';
    for (i, value) in values.iter().enumerate() {
        let lead = ElementLead { mark, index: i };
        end = put_element(lead, element, value, buffer, end)?;
        mark = b',';
    }
    Ok(end)
}

/// Writes an element after its mark and its index.
#[cycle(texts)]
fn put_element(
    lead: ElementLead,
    element: &Class,
    value: &Value,
    buffer: &mut Vec<u8>,
    at: usize,
) -> Result<usize, NoMemory>
    requires { at ≤ vec_len buffer.old }
    ensures { let shown = texts.value_text element.now in
        let piece = lead.mark ∷ 32 ∷ texts.element_text shown lead.index (val value.now) in
        IfOk result (IsPut buffer.old at piece buffer.new) }
{
    let begin = put_index(lead, buffer, at)?;
    put_part(element, value, buffer, begin)
}
