//! Field classes as text.

use crate::metadata::integer::{put_integer, put_labels, put_span};
use crate::row::Row;
use ctf_class::{Choices, Class, Kind, Length, Member, Origin, Route, Scope};

/// Puts a class and its alignment: `u8le@8`, `{a u8le@8; }@8`, `[3] string@8@8`.
#[cycle(put)]
pub fn put_class(row: &mut Row<'_>, class: &Class) {
    match &class.kind {
        Kind::Integer(integer) => put_integer(row, integer),
        Kind::Enumeration { container, labels } => {
            row.put(b"enum ");
            put_integer(row, container);
            put_labels(row, labels.get().as_slice());
        }
        Kind::String => row.put(b"string"),
        Kind::Structure { members } => put_members(row, members.as_slice()),
        Kind::Variant {
            tag,
            choices,
            options,
        } => {
            row.put(b"variant <");
            put_route(row, tag);
            row.put(b"> ");
            put_choices(row, choices);
            put_members(row, options.as_slice());
        }
        Kind::Array { length, element } => {
            put_length(row, length);
            put_class(row, element.get());
        }
        Kind::Text { length } => {
            put_length(row, length);
            row.put(b"text");
        }
    }
    row.put_number(b"@", class.align.bits() as i128);
}

/// Puts members, or options.
#[cycle(put)]
fn put_members(row: &mut Row<'_>, members: &[Member]) {
    row.put(b"{");
    for member in members {
        row.put(member.name.as_slice());
        row.put(b" ");
        put_class(row, &member.class);
        row.put(b"; ");
    }
    row.put(b"}");
}

/// Puts which numbers of the tag name which option, by its place.
fn put_choices(row: &mut Row<'_>, choices: &Choices) {
    row.put(b"(");
    if let Ok(choices) = choices.to_list(row.alloc) {
        for choice in choices.as_slice() {
            put_span(row, choice.span);
            row.put_number(b" is ", choice.option as i128);
            row.put(b"; ");
        }
    }
    row.put(b") ");
}

/// Puts how many elements there are.
fn put_length(row: &mut Row<'_>, length: &Length) {
    row.put(b"[");
    match length {
        Length::Fixed(count) => row.put_number(b"", *count as i128),
        Length::Field(route) => put_route(row, route),
    }
    row.put(b"] ");
}

/// Puts where a route begins, as a scope's name or how many structures further out, and its steps.
fn put_route(row: &mut Row<'_>, route: &Route) {
    match route.origin {
        Origin::Enclosing(0) => row.put(b"here"),
        Origin::Enclosing(further) => {
            row.put_number(b"", further as i128);
            row.put(b" out");
        }
        Origin::Earlier(scope) => row.put(name_of(scope)),
    }
    for step in route.steps.as_slice() {
        row.put_number(b" ", *step as i128);
    }
}

/// The name of a scope.
fn name_of(scope: Scope) -> &'static [u8] {
    match scope {
        Scope::PacketHeader => b"trace.packet.header",
        Scope::PacketContext => b"stream.packet.context",
        Scope::EventHeader => b"stream.event.header",
        Scope::StreamEventContext => b"stream.event.context",
        Scope::EventContext => b"event.context",
        Scope::EventFields => b"event.fields",
    }
}
