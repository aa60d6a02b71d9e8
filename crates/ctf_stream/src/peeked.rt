//! What a reader gives next.

ghost use Rattle.std.specs.Prelude.{◌≡◌, option_map};
ghost use Rattle.ctf_stream.specs.Peeked.{told, time_in};

use crate::packet::{PacketItem, PacketReader, WrittenRecord};
use crate::reader::{ReaderHead, StreamReader};
use ctf_bits::Source;
use ctf_clock::Moment;
use ctf_packet::StreamFault;

/// What a reader gives next.
#[derive(Clone, Copy)]
pub enum Peeked {
    /// Nothing was fetched yet, or the item was given away.
    Start,
    /// An item, and its time, in nanoseconds since the epoch, where its stream has a clock.
    Item(Option<i64>),
    Ended,
    Fault(StreamFault),
}

/// The time of an item of a packet, in nanoseconds since the epoch. Mostly it is an event record that was written, or
/// passed over.
#[inline(always)]
fn time_of(front: &PacketItem, packet: &PacketReader) -> Option<i64>
    ensures { result ≡ time_in front.now packet.now }
{
    if let PacketItem::Written(written) = front {
        return time_at(written.read.event.clock);
    }
    if let PacketItem::Passed(read) = front {
        return time_at(read.event.clock);
    }
    other_time(front, packet)
}

/// The time of an item that was neither written nor passed over, out of the way of those.
/// In one `match` with these, it would be a table of jumps.
#[cold]
#[inline(never)]
fn other_time(front: &PacketItem, packet: &PacketReader) -> Option<i64>
    ensures { result ≡ time_in front.now packet.now }
{
    match front {
        PacketItem::Event(record) => time_at(record.clock),
        PacketItem::Written(WrittenRecord { read, .. }) | PacketItem::Passed(read) => {
            time_at(read.event.clock)
        }
        PacketItem::Discarded(_) => time_at(packet.opened.clock),
        PacketItem::Lost(_) => time_at(packet.opened.clock),
    }
}

/// The time of a moment, if there is one.
#[inline(always)]
fn time_at(clock: Option<Moment>) -> Option<i64>
    ensures { result ≡ option_map (λ m. m.time) clock }
{
    match clock {
        Some(moment) => Some(moment.time),
        None => None,
    }
}

impl<'a, S: Source + Drop> StreamReader<'a, S> {
    /// What comes next. Mostly it is an item.
    pub fn ahead(&self) -> Peeked
        ensures { result ≡ told self.now.ahead }
    {
        if let ReaderHead::Item(front) = &self.head {
            return match &self.read_state.packet {
                Some(packet) => Peeked::Item(time_of(front, packet)),
                None => Peeked::Start,
            };
        }
        if let ReaderHead::Fault(fault) = &self.head {
            return Peeked::Fault(*fault);
        }
        if let ReaderHead::Ended = &self.head {
            return Peeked::Ended;
        }
        Peeked::Start
    }
}
