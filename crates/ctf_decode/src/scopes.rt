//! The values that were decoded before.

ghost use Rattle.std.specs.Prelude.{◌≡◌, ◌≤◌};
ghost use Rattle.std.specs.Option.{option_copied};
ghost use Rattle.ctf_decode.specs.Known.{nothing_known, value_at, with_value, without_value, without_record, with_spent};

use crate::slot::Slot;
use crate::value::Value;
use ctf_class::Scope;
use std::marker::Model;

/// How many values may be in one event record, and in one packet's header and context together.
pub const MOST_VALUES: u64 = 16_777_216;

/// The values decoded so far, by scope, and how many values were begun for them. Contracts see both.
#[derive(Drop)]
pub struct Scopes {
    packet_header: Slot,
    packet_context: Slot,
    event_header: Slot,
    stream_event_context: Slot,
    event_context: Slot,
    event_fields: Slot,
    spent: u64,
}

impl Model for Scopes {
    ghost use Rattle.std.specs.Prelude.{◌≤◌};
    ghost use Rattle.ctf_decode.specs.Known.{Known};

    ghost Value = { Known };

    ghost use Rattle.ctf_decode.specs.contracts.value.Value as values;
    ghost use Rattle.std.specs.Coded.{codes};

    ghost coded = { Prim.hlevel (codes, values.the_row.coded) };

    ghost view = { λ scopes. record {
      packet_header = scopes.packet_header;
      packet_context = scopes.packet_context;
      event_header = scopes.event_header;
      stream_event_context = scopes.stream_event_context;
      event_context = scopes.event_context;
      event_fields = scopes.event_fields;
      spent = scopes.spent;
    } };

    ghost use Rattle.ctf_decode.specs.declared.scopes.TheConstants.{MOST_VALUES};

    ghost invariant = { λ scopes. scopes.spent ≤ MOST_VALUES };
}

impl Scopes {
    /// Scopes without values, none of which was begun.
    pub fn new() -> Scopes
        ensures { result ≡ nothing_known }
    {
        Scopes {
            packet_header: Slot::empty(),
            packet_context: Slot::empty(),
            event_header: Slot::empty(),
            stream_event_context: Slot::empty(),
            event_context: Slot::empty(),
            event_fields: Slot::empty(),
            spent: 0,
        }
    }

    /// Puts the value of a scope in place of the one that was there.
    pub fn put(&mut self, scope: Scope, value: Value)
        ensures { self.new ≡ with_value self.old scope value }
    {
        let mut value = value;
        self.exchange(scope, &mut value);
    }

    /// Puts the value of a scope in place of the one that was there. Afterwards `value` is unspecified; its memory can
    /// be used again.
    #[inline(always)]
    pub fn exchange(&mut self, scope: Scope, value: &mut Value)
        ensures { self.new ≡ with_value self.old scope value.old }
    {
        match scope {
            Scope::PacketHeader => self.packet_header.exchange(value),
            Scope::PacketContext => self.packet_context.exchange(value),
            Scope::EventHeader => self.event_header.exchange(value),
            Scope::StreamEventContext => self.stream_event_context.exchange(value),
            Scope::EventContext => self.event_context.exchange(value),
            Scope::EventFields => self.event_fields.exchange(value),
        }
    }

    /// The value of a scope, if it was decoded.
    pub fn get(&self, scope: Scope) -> Option<&Value>
        ensures { option_copied result ≡ value_at self.now scope }
    {
        match scope {
            Scope::PacketHeader => self.packet_header.get(),
            Scope::PacketContext => self.packet_context.get(),
            Scope::EventHeader => self.event_header.get(),
            Scope::StreamEventContext => self.stream_event_context.get(),
            Scope::EventContext => self.event_context.get(),
            Scope::EventFields => self.event_fields.get(),
        }
    }

    /// The value of a scope, which is then not there.
    pub fn take(&mut self, scope: Scope) -> Option<Value>
        ensures value { result ≡ value_at self.old scope }
        ensures rest { self.new ≡ without_value self.old scope }
    {
        match scope {
            Scope::PacketHeader => self.packet_header.take(),
            Scope::PacketContext => self.packet_context.take(),
            Scope::EventHeader => self.event_header.take(),
            Scope::StreamEventContext => self.stream_event_context.take(),
            Scope::EventContext => self.event_context.take(),
            Scope::EventFields => self.event_fields.take(),
        }
    }

    /// Leaves no value in a scope. Afterwards `spare` is unspecified; its memory can be used again.
    pub fn leave(&mut self, scope: Scope, spare: &mut Value)
        ensures { self.new ≡ without_value self.old scope }
    {
        match scope {
            Scope::PacketHeader => self.packet_header.leave(spare),
            Scope::PacketContext => self.packet_context.leave(spare),
            Scope::EventHeader => self.event_header.leave(spare),
            Scope::StreamEventContext => self.stream_event_context.leave(spare),
            Scope::EventContext => self.event_context.leave(spare),
            Scope::EventFields => self.event_fields.leave(spare),
        }
    }

    /// Leaves no value in a scope. Its memory is kept there.
    #[inline(always)]
    pub fn hide(&mut self, scope: Scope)
        ensures { self.new ≡ without_value self.old scope }
    {
        match scope {
            Scope::PacketHeader => self.packet_header.hide(),
            Scope::PacketContext => self.packet_context.hide(),
            Scope::EventHeader => self.event_header.hide(),
            Scope::StreamEventContext => self.stream_event_context.hide(),
            Scope::EventContext => self.event_context.hide(),
            Scope::EventFields => self.event_fields.hide(),
        }
    }

    /// Leaves the values of the packet alone, and starts counting anew: none was begun. The memory of those of an event
    /// record is kept.
    pub fn leave_record(&mut self)
        ensures { self.new ≡ without_record self.old }
    {
        self.event_header.hide();
        self.stream_event_context.hide();
        self.event_context.hide();
        self.event_fields.hide();
        self.spent = 0;
    }

    /// Sets how many values were begun before, at most `MOST_VALUES`.
    pub fn set_spent(&mut self, spent: u64)
        requires { spent ≤ MOST_VALUES }
        ensures { self.new ≡ with_spent self.old spent }
    {
        self.spent = spent;
    }

    /// How many values were begun before.
    pub fn spent(&self) -> u64
        ensures value { result ≡ self.now.spent }
        ensures few { result ≤ MOST_VALUES }
    {
        self.spent
    }
}
