//! A reader of one stream, a packet at a time.

ghost use Rattle.std.specs.Prelude.{◌≡◌, ◌+◌, ◌<◌, ◌≤◌, ◌⊎◌, IsTrue, IfSome, length};
ghost use Rattle.ctf_packet.specs.Classes.{trace_form};
ghost use Rattle.ctf_packet.specs.Items.{run_of};
ghost use Rattle.ctf_stream.specs.Asked.{asked_first};
ghost use Rattle.ctf_stream.specs.declared.reader.ReaderHead.TheVariants.{Start, Ended, Fault};
ghost use Rattle.ctf_stream.specs.declared.texts.Texts.TheVariants as texts;
ghost use Rattle.ctf_stream.specs.Shown.{ShowsValues, Tells, IsMade, IsMadeTold, IsAsked};
ghost use Rattle.ctf_stream.specs.Reader.{start, fault_ahead, coming, rest_of, OrRefused, IsFetched, IsLast, IsOnLine, IsAllTaken, RoomTaken};
ghost use Rattle.ctf_stream.specs.Owned.{Gives, GivesAhead, GivesOf, GivesRoom, KeepsAfter, ahead_after};

use crate::item::{CurrentItem, Item};
use crate::owned::OwnedItem;
use crate::packet::PacketItem;
use crate::read_state::ReadState;
use ctf_bits::Source;
use ctf_class::TraceClass;
use ctf_clock::Shift;
use ctf_decode::Scopes;
use ctf_fetch::PacketStart;
use ctf_list::Text;
use ctf_packet::StreamFault;
use std::alloc::Global;
use std::marker::Model;

/// What the reader gives next.
#[derive(Drop)]
pub(crate) enum ReaderHead<'a> {
    /// Nothing was fetched yet, or the item was given away.
    Start,
    Item(PacketItem<'a>),
    Ended,
    Fault(StreamFault),
}

/// Reads a stream of packets, one packet at a time (CTF 1.8.3, section 5). It is seen as what is still to
/// come of the stream.
#[derive(Drop)]
pub struct StreamReader<'a, S: Source + Drop> {
    alloc: Global,
    name: Text,
    source: S,
    pub(crate) read_state: ReadState<'a>,
    pub(crate) head: ReaderHead<'a>,
}

impl<'a, S: Source + Drop> Model for StreamReader<'a, S> {
    ghost use Rattle.std.specs.Prelude.{◌+◌, length};
    ghost use Rattle.ctf_stream.specs.ReadState.{coming_of, room_of};
    ghost use Rattle.ctf_stream.specs.Reader.{Reader};
    ghost use Rattle.ctf_stream.specs.Standing.{ahead_of, room_ahead, IsStanding};

    ghost Value = { Reader };

    ghost use Rattle.ctf_class.specs.contracts.class.Kind as kinds;
    ghost use Rattle.ctf_stream.specs.Codes.{coded_val};
    ghost use Rattle.std.specs.Coded.{codes};

    ghost coded = { Prim.hlevel (codes, kinds.the_row.coded, coded_val) };

    ghost view = { λ r. record {
      trace = r.read_state.cut.trace.now;
      name = r.name;
      tells = S.tells r.source;
      writes = r.read_state.writes;
      ahead = ahead_of r.read_state r.head;
      after = coming_of (S.ending r.source) (S.left r.source) r.read_state;
      left = S.left r.source;
      taken = r.read_state.taken;
      cut = r.read_state.cut.at;
      held = length r.read_state.buffer;
      room = room_ahead r.head + room_of r.read_state;
    } };

    ghost invariant = { λ r. IsStanding r.read_state r.head };
}

impl<'a, S: Source + Drop> StreamReader<'a, S> {
    /// A reader that has fetched nothing. What is to come is what the bytes of the source mean, each time
    /// shifted. `name` is the stream's.
    pub fn new(
        alloc: Global,
        trace: &'a TraceClass,
        name: Text,
        source: S,
        shift: Shift,
    ) -> StreamReader<'a, S>
        ensures told { IsTrue (S.tells source) →
            coming result ≡ run_of (trace_form shift trace.now) (S.ending source) (S.left source) }
        ensures trace { result.trace ≡ trace.now }
        ensures name { result.name ≡ name }
        ensures tells { result.tells ≡ S.tells source }
        ensures left { result.left ≡ S.left source }
        ensures start { result.ahead ≡ start }
        ensures taken { result.taken ≡ 0 }
        ensures held { result.held ≡ 0 }
        ensures on_line { IsOnLine result }
        ensures writes { result.writes ≡ texts.None }
    {
        let read_state = ReadState::new(alloc, PacketStart::new(trace, shift));
        StreamReader {
            alloc,
            name,
            source,
            read_state,
            head: ReaderHead::Start,
        }
    }

    /// From now on the reader gives event records as texts, where these can be made without the values; of those before
    /// `begin`, if it is given, in nanoseconds since the epoch, it may tell the clock alone. A reader that was asked
    /// for texts before stays as it is.
    pub fn with_texts(self, begin: Option<i64>) -> StreamReader<'a, S>
        ensures { let writes = asked_first self.entry.writes begin in
            result ≡ record self.entry { writes = writes } }
    {
        let mut reader = self;
        reader.read_state.ask(begin);
        reader
    }

    /// Goes past the current item and fetches the next. An end and a fault stay.
    pub fn go_on(&mut self)
        // What was to come after it comes now, unless an allocation failed.
        ensures goes_on { IsTrue self.old.tells → OrRefused (rest_of self.old) (coming self.new) }
        ensures fetched { IsFetched self.new.ahead }

        // Of any source: an end and a fault stay as they are, and an item that is left took room.
        ensures stays { IsLast self.old.ahead → self.new ≡ self.old }
        ensures room { RoomTaken self.old.ahead self.old.room self.new.room }
        ensures trace { self.new.trace ≡ self.old.trace }
        ensures writes { self.new.writes ≡ self.old.writes }
        ensures name { self.new.name ≡ self.old.name }

        // The bytes taken are those that the source gave, and no more than the next item needs.
        ensures tells { IsTrue self.old.tells → IsTrue self.new.tells }
        ensures counted { IsTrue self.old.tells →
            self.new.taken + length self.new.left ≡ self.old.taken + length self.old.left }
        ensures on_line { IsOnLine self.new }
        ensures all_taken { IsTrue self.old.tells →
            IsLast self.old.ahead ⊎ IsAllTaken self.new.ahead self.new.left }
    {
        match &self.head {
            ReaderHead::Ended => return,
            ReaderHead::Fault(_) => return,
            ReaderHead::Item(_) => {}
            ReaderHead::Start => {}
        }
        // After a record before the beginning that no plan goes over, the next one mostly is such, too.
        let written = is_written(&self.head);
        if let Some(front) = self.read_state.next_written(self.alloc, written) {
            self.head = ReaderHead::Item(front);
            return;
        }
        clear(&mut self.head);
        self.advance();
    }

    /// Fetches the next item, where nothing is current. Mostly the next item is one that `go_on` fetches itself, so
    /// this is kept out of its way.
    #[inline(never)]
    fn advance(&mut self)
        requires { self.old.ahead ≡ start }
        ensures comes { IsTrue self.old.tells → OrRefused (coming self.old) (coming self.new) }
        ensures fetched { IsFetched self.new.ahead }
        ensures room { self.new.room ≤ self.old.room }
        ensures trace { self.new.trace ≡ self.old.trace }
        ensures writes { self.new.writes ≡ self.old.writes }
        ensures name { self.new.name ≡ self.old.name }
        ensures tells { IsTrue self.old.tells → IsTrue self.new.tells }
        ensures counted { IsTrue self.old.tells →
            self.new.taken + length self.new.left ≡ self.old.taken + length self.old.left }
        ensures on_line { IsOnLine self.new }
        ensures all_taken { IsTrue self.old.tells → IsAllTaken self.new.ahead self.new.left }
    {
        if let Some(front) = self.read_state.next_apart(self.alloc) {
            self.head = ReaderHead::Item(front);
            return;
        }
        match self.read_state.advance(self.alloc, &mut self.source) {
            Ok(Some(front)) => self.head = ReaderHead::Item(front),
            Ok(None) => {
                self.read_state.release(self.alloc);
                end(&mut self.head);
            }
            Err(fault) => {
                self.read_state.release(self.alloc);
                stop(&mut self.head, fault);
            }
        }
    }

    /// The next item, by value; `None` at the end. After a fault the same fault again, after the end the end again.
    ///
    /// An error is the fault of the stream after the items before, F1 to F11, F13 or F14, or `NoMemory`.
    pub fn next(&mut self) -> Result<Option<OwnedItem<'a>>, StreamFault>
        // The first item that was to come is given, out of a packet that ends where the bytes taken do and is held, and
        // the rest is to come.
        ensures gives { IsTrue self.old.tells → Gives (coming self.old) self.new result }
        ensures of { GivesOf self.old.trace self.old.name result }

        // Of any source: what was current is given, an end and a fault stay as they are, and an item that is given took
        // room and is no longer current.
        ensures told { GivesAhead self.old.ahead self.new result }
        ensures ahead { self.new.ahead ≡ ahead_after result }
        ensures stays { IsLast self.old.ahead → self.new ≡ self.old }
        ensures room { GivesRoom self.old.room self.new.room result }
        ensures trace { self.new.trace ≡ self.old.trace }
        ensures writes { self.new.writes ≡ self.old.writes }
        ensures name { self.new.name ≡ self.old.name }

        // The bytes taken are those that the source gave, and no more than the item needs.
        ensures tells { IsTrue self.old.tells → IsTrue self.new.tells }
        ensures counted { IsTrue self.old.tells →
            self.new.taken + length self.new.left ≡ self.old.taken + length self.old.left }
        ensures on_line { IsOnLine self.new }
        ensures all_taken { IsTrue self.old.tells →
            IsLast self.old.ahead ⊎ IsAllTaken self.new.ahead self.new.left }
    {
        self.fetch();
        self.give()
    }

    /// Fetches the next item, if nothing is current.
    fn fetch(&mut self)
        ensures comes { IsTrue self.old.tells → OrRefused (coming self.old) (coming self.new) }
        ensures fetched { IsFetched self.new.ahead }
        ensures stays { IsFetched self.old.ahead → self.new ≡ self.old }
        ensures room { self.new.room ≤ self.old.room }
        ensures trace { self.new.trace ≡ self.old.trace }
        ensures writes { self.new.writes ≡ self.old.writes }
        ensures name { self.new.name ≡ self.old.name }
        ensures tells { IsTrue self.old.tells → IsTrue self.new.tells }
        ensures counted { IsTrue self.old.tells →
            self.new.taken + length self.new.left ≡ self.old.taken + length self.old.left }
        ensures all_taken { IsTrue self.old.tells →
            IsFetched self.old.ahead ⊎ IsAllTaken self.new.ahead self.new.left }
    {
        match &self.head {
            ReaderHead::Start => self.go_on(),
            ReaderHead::Item(_) => {}
            ReaderHead::Ended => {}
            ReaderHead::Fault(_) => {}
        }
    }

    /// Gives the current item away, or reports the end or the fault.
    fn give(&mut self) -> Result<Option<OwnedItem<'a>>, StreamFault>
        requires { IsFetched self.old.ahead }
        ensures told { GivesAhead self.old.ahead self.new result }
        ensures of { GivesOf self.old.trace self.old.name result }
        ensures ahead { self.new.ahead ≡ ahead_after result }
        ensures stays { IsLast self.old.ahead → self.new ≡ self.old }
        ensures after { KeepsAfter self.old.after self.new.after result }
        ensures room { GivesRoom self.old.room self.new.room result }
        ensures trace { self.new.trace ≡ self.old.trace }
        ensures writes { self.new.writes ≡ self.old.writes }
        ensures name { self.new.name ≡ self.old.name }
        ensures tells { self.new.tells ≡ self.old.tells }
        ensures left { self.new.left ≡ self.old.left }
        ensures taken { self.new.taken ≡ self.old.taken }
        ensures cut { self.new.cut ≡ self.old.cut }
        ensures on_line { IsOnLine self.new }
    {
        let front = match &self.head {
            ReaderHead::Start => unreachable!(),
            ReaderHead::Ended => return Ok(None),
            ReaderHead::Fault(fault) => return Err(*fault),
            ReaderHead::Item(front) => front,
        };
        match self.read_state.give(self.alloc, front, &self.name) {
            Ok(item) => {
                self.head = ReaderHead::Start;
                Ok(Some(item))
            }
            Err(_) => {
                self.read_state.release(self.alloc);
                self.head = ReaderHead::Fault(StreamFault::NoMemory);
                Err(StreamFault::NoMemory)
            }
        }
    }

    /// The current item, if there is one: an event record as a text, if it was read as that, and as its clock alone, if
    /// it was passed over. No memory is taken.
    pub fn told(&self) -> Option<CurrentItem<'_>>
        ensures tells { Tells self.now.trace self.now.name self.now.ahead result }
        ensures made { IfSome result IsMadeTold }
        ensures asked { IfSome result (IsAsked self.now.writes) }
    {
        match &self.head {
            ReaderHead::Item(front) => self.read_state.current_item(front, self.name.as_str()),
            ReaderHead::Start => None,
            ReaderHead::Ended => None,
            ReaderHead::Fault(_) => None,
        }
    }

    /// The current item, if there is one, with its values; `None` also of an event record that was read as a text or
    /// passed over. No memory is taken.
    pub fn head(&self) -> Option<Item<'_>>
        ensures shows { ShowsValues self.now.writes self.now.trace self.now.name self.now.ahead
            result }
        ensures made { IfSome result IsMade }
    {
        match self.told() {
            Some(CurrentItem::Item(item)) => Some(item),
            Some(CurrentItem::Text(_)) => None,
            Some(CurrentItem::Passed(_)) => None,
            None => None,
        }
    }

    /// The current fault, if there is one.
    pub fn fault(&self) -> Option<StreamFault>
        ensures { result ≡ fault_ahead self.now.ahead }
    {
        match &self.head {
            ReaderHead::Fault(fault) => Some(*fault),
            ReaderHead::Ended => None,
            ReaderHead::Item(_) => None,
            ReaderHead::Start => None,
        }
    }

    /// The length of the packet that is held, in bytes: 0 where none is.
    pub fn held(&self) -> usize
        ensures { result ≡ self.now.held }
    {
        self.read_state.buffer.len()
    }

    /// The source of the stream.
    pub fn source(&self) -> &S
        ensures tells { self.now.tells ≡ S.tells result.now }
        ensures left { self.now.left ≡ S.left result.now }
    {
        &self.source
    }

    /// The name of the stream.
    pub fn name(&self) -> &str
        ensures { result.now ≡ self.now.name }
    {
        self.name.as_str()
    }
}

/// Whether the current item is an event record that was written.
#[inline(always)]
fn is_written(head: &ReaderHead<'_>) -> bool {
    if let ReaderHead::Item(PacketItem::Written(_)) = head {
        return true;
    }
    false
}

/// Makes nothing current. It is put there in a call, so that `go_on` clears no room for each event record.
#[inline(never)]
fn clear(head: &mut ReaderHead<'_>)
    ensures { head.new ≡ Start }
{
    *head = ReaderHead::Start;
}

/// Gives the end of a stream next. It is put there in a call, so that no room is cleared for a large value that is
/// seldom made.
#[cold]
#[inline(never)]
fn end(head: &mut ReaderHead<'_>)
    ensures { head.new ≡ Ended }
{
    *head = ReaderHead::Ended;
}

/// Gives the fault of a stream next.
#[cold]
#[inline(never)]
fn stop(head: &mut ReaderHead<'_>, fault: StreamFault)
    ensures { head.new ≡ Fault fault }
{
    *head = ReaderHead::Fault(fault);
}
