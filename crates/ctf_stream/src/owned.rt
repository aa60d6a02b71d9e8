//! Items of a stream by value.

ghost use Rattle.std.specs.Prelude.{◌≡◌, ℕ, List, None, option_copied, option_map};
ghost use Rattle.ctf_class.specs.declared.trace.TraceClass.{TraceClass};
ghost use Rattle.ctf_decode.specs.Known.{value_at};
ghost use Rattle.ctf_stream.specs.Shown as shown;
ghost use Rattle.ctf_stream.specs.Owned as owned;

use crate::item::{Event, Gap, Item};
use ctf_class::{EventClass, Scope, StreamClass, TraceClass};
use ctf_clock::Moment;
use ctf_decode::{Scopes, Value};
use ctf_list::Text;

/// An item of a stream, by value.
#[derive(Drop)]
pub enum OwnedItem<'a> {
    Event(OwnedEvent<'a>),
    /// Event records that the tracer discarded before a packet.
    Discarded(OwnedGap),
    /// Packets that the tracer lost before a packet.
    Lost(OwnedGap),
}

/// An event record (CTF 1.8.3, section 6), with its classes.
#[derive(Drop)]
pub struct OwnedEvent<'a> {
    pub trace: &'a TraceClass,
    pub stream: &'a StreamClass,
    pub class: &'a EventClass,
    /// The clock after its header, where the stream has one.
    pub moment: Option<Moment>,
    /// The values of its scopes, those of its packet's header and context among them.
    pub scopes: Scopes,
}

/// What a tracer did not write before a packet.
#[derive(Drop)]
pub struct OwnedGap {
    /// How many event records or packets, at least one.
    pub count: u64,
    /// The clock after the packet's context, where the stream has one.
    pub moment: Option<Moment>,
    /// Since when: the clock before the packet.
    pub from: Option<Moment>,
    /// Until when.
    pub to: Option<Moment>,
    /// The name of the stream.
    pub name: Text,
}

impl<'a> OwnedItem<'a> {
    /// The item by reference.
    pub fn as_item(&self) -> Item<'_>
        ensures item { (end length : ℕ) →
            shown.item_of result end length ≡ owned.item_of self.now end length }
        ensures of { (trace : TraceClass) (name : List ℕ) → owned.IsOf trace name self.now →
            shown.IsOf trace name result }
    {
        match self {
            OwnedItem::Event(event) => Item::Event(event.as_event()),
            OwnedItem::Discarded(gap) => Item::Discarded(gap.as_gap()),
            OwnedItem::Lost(gap) => Item::Lost(gap.as_gap()),
        }
    }
}

impl<'a> OwnedEvent<'a> {
    /// The event record by reference.
    pub fn as_event(&self) -> Event<'_>
        ensures trace { result.trace.now ≡ self.now.trace.now }
        ensures stream { result.stream.now ≡ self.now.stream.now }
        ensures class { result.class.now ≡ self.now.class.now }
        ensures moment { result.moment ≡ self.now.moment }
        ensures scopes { result.scopes.now ≡ self.now.scopes }
        ensures part { result.part ≡ None }
    {
        Event {
            trace: self.trace,
            stream: self.stream,
            class: self.class,
            moment: self.moment,
            scopes: &self.scopes,
            part: None,
        }
    }

    /// The time of the event, in nanoseconds since the epoch.
    pub fn time(&self) -> Option<i64>
        ensures { result ≡ option_map (λ m. m.time) self.now.moment }
    {
        self.as_event().time()
    }

    /// The value of the clock, in cycles.
    pub fn cycles(&self) -> Option<u64>
        ensures { result ≡ option_map (λ m. m.cycles) self.now.moment }
    {
        self.as_event().cycles()
    }

    /// The value of a scope, if it has a class.
    pub fn value(&self, scope: Scope) -> Option<&Value>
        ensures { option_copied result ≡ value_at self.now.scopes scope }
    {
        self.as_event().value(scope)
    }
}

impl OwnedGap {
    /// What is missing, by reference.
    pub fn as_gap(&self) -> Gap<'_>
        ensures count { result.count ≡ self.now.count }
        ensures moment { result.moment ≡ self.now.moment }
        ensures from { result.from ≡ self.now.from }
        ensures to { result.to ≡ self.now.to }
        ensures name { result.name.now ≡ self.now.name }
    {
        let OwnedGap {
            count,
            moment,
            from,
            to,
            name,
        } = self;
        Gap {
            count: *count,
            moment: *moment,
            from: *from,
            to: *to,
            name: name.as_str(),
        }
    }
}
