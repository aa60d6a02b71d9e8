//! Items of a stream.

ghost use Rattle.std.specs.Prelude.{◌≡◌, option_copied, option_map};
ghost use Rattle.ctf_decode.specs.Known.{value_at};

use ctf_class::{EventClass, Scope, StreamClass, TraceClass};
use ctf_clock::Moment;
use ctf_decode::{Scopes, Value};

/// An item of a stream.
#[derive(Clone, Copy)]
pub enum Item<'r> {
    Event(Event<'r>),
    /// Event records that the tracer discarded before a packet.
    Discarded(Gap<'r>),
    /// Packets that the tracer lost before a packet.
    Lost(Gap<'r>),
}

/// An event record (CTF 1.8.3, section 6), with its classes.
#[derive(Clone, Copy)]
pub struct Event<'r> {
    pub trace: &'r TraceClass,
    pub stream: &'r StreamClass,
    pub class: &'r EventClass,
    /// The clock after its header, where the stream has one.
    pub moment: Option<Moment>,
    /// The values of its scopes.
    pub scopes: &'r Scopes,
    /// The text of the packet context in its line, where it was made: all event records of the packet have the same.
    pub part: Option<&'r [u8]>,
}

/// What a tracer did not write before a packet.
#[derive(Clone, Copy)]
pub struct Gap<'r> {
    /// How many event records or packets, at least one.
    pub count: u64,
    /// The clock after the packet's context, where the stream has one.
    pub moment: Option<Moment>,
    /// Since when: the clock before the packet.
    pub from: Option<Moment>,
    /// Until when.
    pub to: Option<Moment>,
    /// The name of the stream.
    pub name: &'r str,
}

/// An event record (CTF 1.8.3, section 6), as its text.
#[derive(Clone, Copy)]
pub struct EventText<'r> {
    /// The clock after its header, where the stream has one.
    pub moment: Option<Moment>,
    /// Its text in its line, after the stamp: the host, the name and the scopes.
    pub text: &'r [u8],
}

/// What a reader says of its current item.
#[derive(Clone, Copy)]
pub enum CurrentItem<'r> {
    /// The item, with its values.
    Item(Item<'r>),
    /// An event record that was read as text.
    Text(EventText<'r>),
    /// An event record before those that are asked for as texts, which was passed over: the clock after its header.
    /// There always is one.
    Passed(Option<Moment>),
}

impl<'r> Event<'r> {
    /// The time of the event, in nanoseconds since the epoch.
    pub fn time(&self) -> Option<i64>
        ensures { result ≡ option_map (λ m. m.time) self.now.moment }
    {
        time_of(self.moment)
    }

    /// The value of the clock, in cycles.
    pub fn cycles(&self) -> Option<u64>
        ensures { result ≡ option_map (λ m. m.cycles) self.now.moment }
    {
        cycles_of(self.moment)
    }

    /// The value of a scope, if it has a class.
    pub fn value(&self, scope: Scope) -> Option<&'r Value>
        ensures { option_copied result ≡ value_at self.now.scopes.now scope }
    {
        self.scopes.get(scope)
    }
}

impl<'r> Gap<'r> {
    /// The time after the context of the packet that follows, in nanoseconds since the epoch.
    pub fn time(&self) -> Option<i64>
        ensures { result ≡ option_map (λ m. m.time) self.now.moment }
    {
        time_of(self.moment)
    }

    /// The value of the clock there, in cycles.
    pub fn cycles(&self) -> Option<u64>
        ensures { result ≡ option_map (λ m. m.cycles) self.now.moment }
    {
        cycles_of(self.moment)
    }
}

/// The time of a moment, in nanoseconds since the epoch.
fn time_of(moment: Option<Moment>) -> Option<i64>
    ensures { result ≡ option_map (λ m. m.time) moment }
{
    match moment {
        None => None,
        Some(moment) => Some(moment.time),
    }
}

/// The cycles of a moment.
fn cycles_of(moment: Option<Moment>) -> Option<u64>
    ensures { result ≡ option_map (λ m. m.cycles) moment }
{
    match moment {
        None => None,
        Some(moment) => Some(moment.cycles),
    }
}
