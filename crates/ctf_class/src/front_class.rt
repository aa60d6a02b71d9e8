//! Classes of a packet's header and context.

ghost use Rattle.std.specs.Prelude.{◌≡◌, ◌≤◌, drop, length, IfOk, IsTrue};
ghost use Rattle.std.specs.List.{All, prefix_len};
ghost use Rattle.ctf_class.specs.Fronts.{AreClockMembers, ArePlaces, SetsNoClock, are_of_packet, is_of_packet, members_of, place_named};
ghost use Rattle.ctf_class.specs.RoleNames.{role_name};

use crate::class::{Class, Kind, Member};
use crate::role::Role;
use ctf_list::{List, NoMemory};
use std::alloc::Global;
use std::marker::Model;

/// The class of a packet's header or context (CTF 1.8.3, section 5). Contracts see the class; with it is kept which of
/// its members say something of the packet, so that no name is compared for a packet, and after which of them none sets
/// the clock.
#[derive(Drop)]
pub struct FrontClass {
    class: Class,
    places: RolePlaces,
    /// For each member, in their order, whether lines leave a member of its name out of a packet context, as
    /// `packet_size`. Settled once, so that no name is compared for a line.
    hidden: List<bool>,
    /// How many of them are before the first one that is shown.
    first_shown: usize,
    /// How many members there are up to the last one that is not an integer without a clock.
    clock_count: usize,
}

/// The index of the first member of each role's name.
#[derive(Clone, Copy)]
struct RolePlaces {
    magic: Option<usize>,
    uuid: Option<usize>,
    stream_id: Option<usize>,
    packet_size: Option<usize>,
    content_size: Option<usize>,
    timestamp_end: Option<usize>,
    events_discarded: Option<usize>,
    sequence_number: Option<usize>,
}

impl Model for FrontClass {
    ghost use Rattle.std.specs.Prelude.{◌≡◌, ◌≤◌, drop, length};
    ghost use Rattle.std.specs.List.{All, prefix_len};
    ghost use Rattle.ctf_class.specs.Fronts.{ArePlaces, SetsNoClock, are_of_packet, members_of};
    ghost use Rattle.ctf_class.specs.declared.class.Class.{Class as ClassOf};
    ghost use Rattle.ctf_class.specs.contracts.class.Class as classes;

    ghost Value = { ClassOf };

    ghost coded = { classes.the_row.coded };

    ghost view = { λ front. front.class };

    ghost invariant = { λ front. ArePlaces (members_of front.class) front.places ×
        (front.hidden ≡ are_of_packet (members_of front.class)) ×
        (front.first_shown ≡ prefix_len (λ hidden. hidden) front.hidden) ×
        (front.clock_count ≤ length (members_of front.class)) ×
        All (λ m. SetsNoClock m.class) (drop front.clock_count (members_of front.class)) };
}

impl FrontClass {
    /// The class of a packet's header or context. It fails where an allocation fails.
    pub fn new(alloc: Global, class: Class) -> Result<FrontClass, NoMemory>
        ensures { IfOk result (λ front. front ≡ class) }
    {
        let members = members_in(&class);
        let places = places_in(members);
        let hidden = hidden_in(alloc, members)?;
        let first_shown = count_hidden_first(hidden.as_slice());
        let clock_count = clock_count_in(members);
        Ok(FrontClass {
            class,
            places,
            hidden,
            first_shown,
            clock_count,
        })
    }

    /// The class of the packet's header or context.
    pub fn class(&self) -> &Class
        ensures { result.now ≡ self.now }
    {
        &self.class
    }

    /// The members, where it is a structure.
    pub fn members(&self) -> &[Member]
        ensures { result.now ≡ members_of self.now }
    {
        members_in(&self.class)
    }

    /// The index of the first member of a role's name.
    #[inline(always)]
    pub fn place(&self, role: Role) -> Option<usize>
        ensures { result ≡ place_named (role_name role) (members_of self.now) }
    {
        match role {
            Role::Magic => self.places.magic,
            Role::Uuid => self.places.uuid,
            Role::StreamId => self.places.stream_id,
            Role::PacketSize => self.places.packet_size,
            Role::ContentSize => self.places.content_size,
            Role::TimestampEnd => self.places.timestamp_end,
            Role::EventsDiscarded => self.places.events_discarded,
            Role::SequenceNumber => self.places.sequence_number,
        }
    }

    /// For each member, in their order, whether it has a name that no line shows of a packet context, since it says
    /// something of the packet and not of its events.
    #[inline(always)]
    pub fn hidden(&self) -> &[bool]
        ensures { result.now ≡ are_of_packet (members_of self.now) }
    {
        self.hidden.as_slice()
    }

    /// The index of the first member that lines show of a packet context, or how many members there are where they show
    /// none.
    #[inline(always)]
    pub fn first_shown(&self) -> usize
        ensures { result ≡ prefix_len (λ hidden. hidden) (are_of_packet (members_of self.now)) }
    {
        self.first_shown
    }

    /// The members up to the last one that is not an integer without a clock: each after them is one that sets none.
    #[inline(always)]
    pub fn clock_members(&self) -> &[Member]
        ensures { AreClockMembers result.now (members_of self.now) }
    {
        &self.members()[..self.clock_count]
    }
}

/// The members of a structure.
fn members_in(class: &Class) -> &[Member]
    ensures { result.now ≡ members_of class.now }
{
    match &class.kind {
        Kind::Structure { members } => members.as_slice(),
        Kind::Integer(_) => &[],
        Kind::Enumeration { .. } => &[],
        Kind::String => &[],
        Kind::Variant { .. } => &[],
        Kind::Array { .. } => &[],
        Kind::Text { .. } => &[],
    }
}

/// The index of the first member of each role's name.
fn places_in(members: &[Member]) -> RolePlaces
    ensures { ArePlaces members.now result }
{
    RolePlaces {
        magic: place_in(members, b"magic"),
        uuid: place_in(members, b"uuid"),
        stream_id: place_in(members, b"stream_id"),
        packet_size: place_in(members, b"packet_size"),
        content_size: place_in(members, b"content_size"),
        timestamp_end: place_in(members, b"timestamp_end"),
        events_discarded: place_in(members, b"events_discarded"),
        sequence_number: place_in(members, b"packet_seq_num"),
    }
}

/// The index of the first member of a name.
fn place_in(members: &[Member], name: &[u8]) -> Option<usize>
    ensures { result ≡ place_named name.now members.now }
{
    members
        .iter()
        .position(|member| member.name.as_slice() == name)
}

/// For each member, in their order, whether lines leave a member of its name out of a packet context.
fn hidden_in(alloc: Global, members: &[Member]) -> Result<List<bool>, NoMemory>
    ensures { IfOk result (λ hidden. hidden ≡ are_of_packet members.now) }
{
    let mut hidden = List::new(alloc);
    for member in members {
        hidden.push(says_of_packet(member.name.as_slice()))?;
    }
    Ok(hidden)
}

/// Whether lines leave a member of this name out of a packet context.
fn says_of_packet(name: &[u8]) -> bool
    ensures { result ≡ is_of_packet name.now }
{
    name == b"packet_size".as_slice()
        || name == b"content_size".as_slice()
        || name == b"timestamp_begin".as_slice()
        || name == b"timestamp_end".as_slice()
        || name == b"events_discarded".as_slice()
        || name == b"packet_seq_num".as_slice()
}

/// How many are true before the first one that is not.
fn count_hidden_first(hidden: &[bool]) -> usize
    ensures { result ≡ prefix_len (λ hidden. hidden) hidden.now }
{
    let mut count = 0;
    while count < hidden.len() && hidden[count] {
        count += 1;
    }
    count
}

/// How many members there are up to the last one that is not an integer without a clock.
fn clock_count_in(members: &[Member]) -> usize
    ensures within { result ≤ length members.now }
    ensures none { All (λ m. SetsNoClock m.class) (drop result members.now) }
{
    let mut count = members.len();
    while count > 0 && sets_no_clock(&members[count - 1].class) {
        count -= 1;
    }
    count
}

/// Whether a class is that of an integer that sets no clock.
fn sets_no_clock(class: &Class) -> bool
    ensures { IsTrue result → SetsNoClock class.now }
{
    if let Kind::Integer(integer) = &class.kind {
        return !integer.is_moving;
    }
    false
}
