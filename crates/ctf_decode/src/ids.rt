//! The class number of an event record.

ghost use Rattle.std.specs.Prelude.{◌≡◌, ◌↔◌, None, map, codes, IsTrue};
ghost use Rattle.std.specs.List.{last_or};
ghost use Rattle.ctf_decode.specs.Values.{vals_of};
ghost use Rattle.ctf_decode.specs.Forms.{parts_of};
ghost use Rattle.ctf_decode.specs.Views.{form, member_part, val};
ghost use Rattle.ctf_decode.specs.Fields as fields;

use crate::parts::{choice_in, elements_in, members_in};
use crate::value::Value;
use ctf_class::{Class, Kind, Member};

/// The number of the last decoded integer or enumeration that is a structure member named `id`, at any
/// depth. A part of the value that is of another kind than its class gives nothing.
pub fn last_id(class: &Class, value: &Value) -> Option<i128>
    ensures { result ≡ last_or None (fields.ids (form class.now) (val value.now)) }
{
    let mut last = None;
    last_in(class, value, &mut last);
    last
}

/// Keeps the last number in a value, if there is one.
#[cycle(ids)]
fn last_in(class: &Class, value: &Value, last: &mut Option<i128>)
    ensures { last.new ≡ last_or last.old (fields.ids (form class.now) (val value.now)) }
{
    match &class.kind {
        Kind::Structure { members } => last_in_members(members.as_slice(), members_in(value), last),
        Kind::Variant {
            tag,
            choices,
            options,
        } => last_in_option(options.as_slice(), value, last),
        Kind::Array { length, element } => last_in_elements(
            element.get(),
            elements_in(value),
            last,
        ),
        Kind::Integer(_) => {}
        Kind::Enumeration { container, labels } => {}
        Kind::String => {}
        Kind::Text { length } => {}
    }
}

/// Keeps the last number in members and in what they hold.
#[cycle(ids)]
fn last_in_members(members: &[Member], values: &[Value], last: &mut Option<i128>)
    ensures { last.new ≡ last_or last.old
        (fields.member_ids (parts_of (map member_part members.now))
        (vals_of (map val values.now))) }
{
    for (i, member) in members.iter().enumerate() {
        if i >= values.len() {
            return;
        }
        let value = &values[i];
        named_id(member, value, last);
        last_in(&member.class, value, last);
    }
}

/// Keeps the last number in elements.
#[cycle(ids)]
fn last_in_elements(element: &Class, values: &[Value], last: &mut Option<i128>)
    ensures { last.new ≡ last_or last.old
        (fields.of_each (fields.ids (form element.now)) (vals_of (map val values.now))) }
{
    for value in values {
        last_in(element, value, last);
    }
}

/// Keeps the last number in an option.
#[cycle(ids)]
fn last_in_option(options: &[Member], value: &Value, last: &mut Option<i128>)
    ensures { last.new ≡ last_or last.old
        (fields.of_choice (fields.choice_in (val value.now))
        (λ i v. fields.option_ids (parts_of (map member_part options.now)) i v)) }
{
    if let Some((i, inner)) = choice_in(value) {
        last_in_chosen(options, i, inner, last);
    }
}

/// Keeps the last number in the value of option i.
#[cycle(ids)]
fn last_in_chosen(options: &[Member], i: usize, inner: &Value, last: &mut Option<i128>)
    ensures { last.new ≡ last_or last.old
        (fields.option_ids (parts_of (map member_part options.now)) i (val inner.now)) }
{
    if i < options.len() {
        last_in(&options[i].class, inner, last);
    }
}

/// Keeps the number of a member that is an integer or an enumeration named `id`; of another member, the
/// last one stays.
#[inline(always)]
pub fn named_id(member: &Member, value: &Value, last: &mut Option<i128>)
    ensures { last.new ≡ last_or last.old
        (fields.named_id member.now.name (form member.now.class) (val value.now)) }
{
    if is_id(member.name.as_slice()) {
        number_in(&member.class, value, last);
    }
}

/// Whether a name is `id`. It is asked of each member of a header, so it takes no call of a comparison of texts.
#[inline(always)]
fn is_id(name: &[u8]) -> bool
    ensures { IsTrue result ↔ (name.now ≡ codes "id") }
{
    name.len() == 2 && name[0] == b'i' && name[1] == b'd'
}

/// Keeps an integer's or an enumeration's number.
fn number_in(class: &Class, value: &Value, last: &mut Option<i128>)
    ensures { last.new ≡ last_or last.old (fields.number_in (form class.now) (val value.now)) }
{
    if let Kind::Enumeration { container, labels } = &class.kind {
        label_in(value, last);
        return;
    }
    if let Kind::Integer(integer) = &class.kind {
        if integer.is_signed {
            signed_in(value, last);
        } else {
            unsigned_in(value, last);
        }
    }
}

/// Keeps the number of an unsigned value; of another value, the last one stays.
fn unsigned_in(value: &Value, last: &mut Option<i128>)
    ensures { last.new ≡ last_or last.old (fields.unsigned_in (val value.now)) }
{
    if let Value::Unsigned(number) = value {
        *last = Some(i128::from(*number));
    }
}

/// Keeps the number of a signed value; of another value, the last one stays.
fn signed_in(value: &Value, last: &mut Option<i128>)
    ensures { last.new ≡ last_or last.old (fields.signed_in (val value.now)) }
{
    if let Value::Signed(number) = value {
        *last = Some(i128::from(*number));
    }
}

/// Keeps the number of an enumeration; of another value, the last one stays.
fn label_in(value: &Value, last: &mut Option<i128>)
    ensures { last.new ≡ last_or last.old (fields.label_in (val value.now)) }
{
    if let Value::Label(number) = value {
        *last = Some(*number);
    }
}
