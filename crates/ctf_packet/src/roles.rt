//! The fields of a packet's header and context that say something of the packet.

ghost use Rattle.std.specs.Prelude.{◌≡◌, ℕ, List, Some, map, option_map, option_and_then, option_copied};
ghost use Rattle.ctf_class.specs.Fronts.{place_named};
ghost use Rattle.ctf_class.specs.RoleNames.{role_name};
ghost use Rattle.ctf_decode.specs.Values.{vals_of};
ghost use Rattle.ctf_decode.specs.Forms as forms;
ghost use Rattle.ctf_decode.specs.Forms.{parts_of};
ghost use Rattle.ctf_decode.specs.Views.{form, member_part, val};
ghost use Rattle.ctf_packet.specs.Roles as roles;

use crate::field::UnsignedField;
use ctf_class::{Class, FrontClass, Integer, Kind, Member, Role};
use ctf_decode::{Value, members_in};

/// The unsigned integer of a role at the top of a scope; `None` where there is no field of its name, or
/// one of another class.
#[tactic(auto, unfolding(crate::specs::Roles::role))]
pub(crate) fn field_of_role(
    class: Option<&FrontClass>,
    value: Option<&Value>,
    role: Role,
) -> Option<UnsignedField>
    ensures { result ≡ roles.role (role_name role) (option_map form (option_copied class.entry))
        (option_map val (option_copied value.entry)) }
{
    match field_at_top(class, value, role) {
        None => None,
        Some((class, value)) => unsigned_field(class, value),
    }
}

/// The unsigned integers of two roles at the top of a scope, each as `field_of_role` gives it. The scope is looked at
/// once.
#[tactic(auto, unfolding(crate::specs::Roles::role))]
#[inline(always)]
pub fn fields_of_roles(
    class: Option<&FrontClass>,
    value: Option<&Value>,
    first: Role,
    second: Role,
) -> (Option<UnsignedField>, Option<UnsignedField>)
    ensures first { result.0 ≡ roles.role (role_name first)
        (option_map form (option_copied class.entry)) (option_map val (option_copied value.entry)) }
    ensures second { result.1 ≡ roles.role (role_name second)
        (option_map form (option_copied class.entry)) (option_map val (option_copied value.entry)) }
{
    match class {
        None => (None, None),
        Some(class) => match value {
            None => (None, None),
            Some(value) => fields_in(class, value, first, second),
        },
    }
}

/// The unsigned integers of two roles of a structure.
#[tactic(auto, unfolding(crate::specs::Roles::role))]
#[inline(always)]
fn fields_in(
    class: &FrontClass,
    value: &Value,
    first: Role,
    second: Role,
) -> (Option<UnsignedField>, Option<UnsignedField>)
    ensures first { result.0 ≡ roles.role (role_name first) (Some (form class.now))
        (Some (val value.now)) }
    ensures second { result.1 ≡ roles.role (role_name second) (Some (form class.now))
        (Some (val value.now)) }
{
    let members = class.members();
    let values = members_in(value);
    let first = unsigned_at(members, values, class.place(first));
    let second = unsigned_at(members, values, class.place(second));
    (first, second)
}

/// The number of the member at an index, if one is given and it is an unsigned integer.
#[inline(always)]
fn unsigned_at(members: &[Member], values: &[Value], place: Option<usize>) -> Option<UnsignedField>
    ensures { (name : List ℕ) → place ≡ place_named name members.now →
        result ≡ option_and_then (λ f. roles.unsigned_field f.0 f.1)
        (roles.member_named name (parts_of (map member_part members.now))
        (vals_of (map val values.now))) }
{
    match member_at(members, values, place) {
        None => None,
        Some((class, value)) => unsigned_field(class, value),
    }
}

/// The number of a field.
pub fn number_in(field: Option<UnsignedField>) -> Option<u64>
    ensures { result ≡ roles.number_in field }
{
    match field {
        None => None,
        Some(field) => Some(field.number),
    }
}

/// The field of a role at the top of a scope.
pub fn field_at_top<'a>(
    class: Option<&'a FrontClass>,
    value: Option<&'a Value>,
    role: Role,
) -> Option<(&'a Class, &'a Value)>
    ensures { option_map (λ f. (form f.0.now, val f.1.now)) result ≡
        roles.field_at_top (role_name role)
        (option_map form (option_copied class.entry)) (option_map val (option_copied value.entry)) }
{
    match class {
        None => None,
        Some(class) => match value {
            None => None,
            Some(value) => member_of(class, value, role),
        },
    }
}

/// The first member of a role of a structure.
#[inline(always)]
fn member_of<'a>(
    class: &'a FrontClass,
    value: &'a Value,
    role: Role,
) -> Option<(&'a Class, &'a Value)>
    ensures { option_map (λ f. (form f.0.now, val f.1.now)) result ≡
        roles.member_of (role_name role) (form class.now) (val value.now) }
{
    member_at(class.members(), members_in(value), class.place(role))
}

/// The member at an index, if one is given and it has a value.
#[inline(always)]
fn member_at<'a>(
    members: &'a [Member],
    values: &'a [Value],
    place: Option<usize>,
) -> Option<(&'a Class, &'a Value)>
    ensures { (name : List ℕ) → place ≡ place_named name members.now →
        option_map (λ f. (form f.0.now, val f.1.now)) result ≡
        roles.member_named name (parts_of (map member_part members.now))
        (vals_of (map val values.now)) }
{
    let place = place?;
    let member = members.get(place)?;
    let value = values.get(place)?;
    Some((&member.class, value))
}

/// The number of an unsigned integer.
fn unsigned_field(class: &Class, value: &Value) -> Option<UnsignedField>
    ensures { result ≡ roles.unsigned_field (form class.now) (val value.now) }
{
    match &class.kind {
        Kind::Integer(integer) => unsigned_integer(integer, value),
        Kind::Structure { members } => None,
        Kind::Enumeration { container, labels } => None,
        Kind::String => None,
        Kind::Variant {
            tag,
            choices,
            options,
        } => None,
        Kind::Array { length, element } => None,
        Kind::Text { length } => None,
    }
}

/// The number of an integer that is unsigned.
fn unsigned_integer(integer: &Integer, value: &Value) -> Option<UnsignedField>
    ensures { (align : ℕ) → result ≡ roles.unsigned_field (forms.integer align integer.now)
        (val value.now) }
{
    match value {
        Value::Unsigned(number) => {
            if integer.is_signed {
                None
            } else {
                Some(UnsignedField {
                    width: integer.size,
                    number: *number,
                })
            }
        }
        Value::Signed(_) => None,
        Value::Label(_) => None,
        Value::Text(_) => None,
        Value::Group(_) => None,
        Value::List(_) => None,
        Value::Choice(_, _) => None,
    }
}
