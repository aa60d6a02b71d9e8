//! Classes that are built from words.
//!
//! `integer:ALIGN:SIZE` is an unsigned integer, `string:ALIGN` a string, `struct:ALIGN:N` takes the last N classes as
//! its members, and `array:ALIGN:LENGTH` and `counted:ALIGN:PLACE` take the last class as their element: as many as
//! LENGTH says, or as the member of this place does. So many bytes have the texts `text:ALIGN:LENGTH` and
//! `spelled:ALIGN:PLACE`. `enum:ALIGN:SIZE` is an enumeration without labels. A member is named by its word.

use crate::row::Row;
use ctf_bits::Order;
use ctf_class::{
    Align, Base, Class, FieldName, FrontClass, Integer, Kind, Labels, Length, Member, Origin,
    Route, Width,
};
use ctf_list::{Boxed, List, NoMemory, Shared};
use std::alloc::Global;

/// The classes that words name, as members, without those that can't be.
pub fn members_of(alloc: Global, words: &str) -> Vec<Member> {
    let mut members = Vec::new(alloc);
    for word in words.split(' ') {
        add_class(alloc, &mut members, word);
    }
    members
}

/// Adds the class that a word names: after the classes before it, or around the last of them.
fn add_class(alloc: Global, members: &mut Vec<Member>, word: &str) -> Option<()> {
    let (kind, rest) = word.split_once(':')?;
    let (align, number) = rest.split_once(':').unwrap_or((rest, ""));
    let align = Align::new(align.parse::<u64>().unwrap_or(0))?;
    let number = number.parse::<u64>().unwrap_or(0);
    let name = List::from_slice(alloc, word.as_bytes()).ok()?;
    let name = FieldName::new(alloc, name).ok()?;
    let kind = kind_of(alloc, members, kind, number)?;
    let class = class(align, kind);
    members.push(Member { name, class }).ok()
}

/// A class, of which nothing here asks for its depth and its count.
fn class(align: Align, kind: Kind) -> Class {
    Class {
        align,
        depth: 1,
        nodes: 1,
        kind,
    }
}

/// The class of a scope: an integer of so many bits.
pub fn scope(bits: u32) -> Option<Class> {
    Some(class(Align::new(8)?, Kind::Integer(decimal(bits)?)))
}

/// The class of a packet's header or context that is an integer of so many bits, if there are any.
pub fn front(alloc: Global, bits: u32) -> Result<Option<FrontClass>, NoMemory> {
    match scope(bits) {
        None => Ok(None),
        Some(class) => Ok(Some(FrontClass::new(alloc, class)?)),
    }
}

/// What a class is.
fn kind_of(alloc: Global, members: &mut Vec<Member>, kind: &str, number: u64) -> Option<Kind> {
    let short = u32::try_from(number).unwrap_or(0);
    match kind {
        "integer" => Some(Kind::Integer(decimal(short)?)),
        "enum" => enumeration(alloc, decimal(short)?),
        "string" => Some(Kind::String),
        "text" => text_of(Length::Fixed(number)),
        "spelled" => text_of(member_at(alloc, short)?),
        "struct" => structure_of(members, number as usize),
        "array" => array_of(alloc, members, Length::Fixed(number)),
        _ => array_of(alloc, members, member_at(alloc, short)?),
    }
}

/// What is known of an unsigned integer of so many bits.
fn decimal(bits: u32) -> Option<Integer> {
    Some(Integer {
        size: Width::new(bits)?,
        is_signed: false,
        base: Base::Decimal,
        order: Order::Le,
        is_moving: false,
    })
}

/// An enumeration without labels.
fn enumeration(alloc: Global, container: Integer) -> Option<Kind> {
    let labels = Labels::new(alloc, List::new(alloc)).ok()?;
    let labels = Shared::new(alloc, labels).ok()?;
    Some(Kind::Enumeration { container, labels })
}

/// A text of this length.
fn text_of(length: Length) -> Option<Kind> {
    Some(Kind::Text { length })
}

/// A structure of the last classes.
fn structure_of(members: &mut Vec<Member>, count: usize) -> Option<Kind> {
    let members = members.split_off(members.len().saturating_sub(count)).ok()?;
    Some(Kind::Structure {
        members: List::from_vec(members),
    })
}

/// An array of the last class.
fn array_of(alloc: Global, members: &mut Vec<Member>, length: Length) -> Option<Kind> {
    let Member { name: _, class } = members.pop()?;
    let element = Boxed::new(alloc, class).ok()?;
    Some(Kind::Array { length, element })
}

/// A length that is a member of the innermost structure.
fn member_at(alloc: Global, place: u32) -> Option<Length> {
    Some(Length::Field(Route {
        origin: Origin::Enclosing(0),
        steps: List::from_slice(alloc, &[place]).ok()?,
    }))
}

/// Puts the words of an integer or of a structure, each after a space.
pub fn put_class(row: &mut Row<'_>, class: &Class) {
    match &class.kind {
        Kind::Integer(integer) => put_word(row, b" integer:", class, integer.size.bits() as i128),
        Kind::Structure { members } => {
            for member in members.as_slice() {
                put_class(row, &member.class);
            }
            put_word(row, b" struct:", class, members.len() as i128);
        }
        _ => row.put(b" another class"),
    }
}

fn put_word(row: &mut Row<'_>, kind: &[u8], class: &Class, number: i128) {
    row.put_number(kind, class.align.bits() as i128);
    row.put_number(b":", number);
}
