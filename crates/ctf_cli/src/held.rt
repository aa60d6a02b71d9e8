//! Bytes that are held back.

ghost use Rattle.std.specs.Prelude.{◌≡◌, ◌+◌, ◌++◌, ◌<◌, ◌≤◌, [], false, length, take, drop, IfOk, IsTrue, OnOk, OnErr};
ghost use Rattle.std.specs.Io.KnownBytes.{Consumes, Keeps, IsAtEnd};
ghost use Rattle.ctf_log.specs.Texts.{text_line};

use ctf_bits::read_uninterrupted;
use ctf_list::NoMemory;
use ctf_log::Printer;
use ctf_stream::EventText;
use std::alloc::Global;
use std::io::{self, Read};
use std::marker::Model;

/// Bytes that are held back, and passed on in their order. Contracts see them, and how many more may be held.
#[derive(Drop)]
pub(crate) struct Held {
    /// As long as what may be held at the most.
    room: Vec<u8>,
    /// Held are the bytes from here on.
    begin: usize,
    /// The index after them.
    end: usize,
}

impl Model for Held {
    ghost use Rattle.std.specs.Prelude.{◌-◌, ◌≤◌, vec_len, take, drop};
    ghost use Rattle.ctf_cli.specs.Holding.{Holding};

    ghost Value = { Holding };

    ghost view = { λ held. record {
      bytes = drop held.begin (take held.end held.room.items);
      room = vec_len held.room - held.end;
    } };

    ghost invariant = { λ held. (held.begin ≤ held.end) × (held.end ≤ vec_len held.room) };
}

impl Held {
    /// Holds nothing, and has no room. No memory is taken.
    pub(crate) fn none(alloc: Global) -> Held
        ensures { result.bytes ≡ [] }
    {
        Held {
            room: Vec::new(alloc),
            begin: 0,
            end: 0,
        }
    }

    /// Holds nothing yet, and has room for `most` bytes.
    pub(crate) fn new(alloc: Global, most: usize) -> Result<Held, NoMemory>
        ensures bytes { IfOk result (λ held. held.bytes ≡ []) }
        ensures room { IfOk result (λ held. held.room ≡ most) }
    {
        let mut room = Vec::new(alloc);
        match room.resize(most, 0) {
            Ok(()) => Ok(Held {
                room,
                begin: 0,
                end: 0,
            }),
            Err(_refused) => Err(NoMemory),
        }
    }

    /// How many bytes more may be held.
    #[inline(always)]
    pub(crate) fn room(&self) -> usize
        ensures { result ≡ self.now.room }
    {
        self.room.len() - self.end
    }

    /// The bytes.
    pub(crate) fn as_slice(&self) -> &[u8]
        ensures { result.now ≡ self.now.bytes }
    {
        &self.room[self.begin..self.end]
    }

    /// Holds further bytes.
    #[inline(always)]
    pub(crate) fn put(&mut self, bytes: &[u8])
        requires { length bytes.now ≤ self.old.room }
        ensures bytes { self.new.bytes ≡ self.old.bytes ++ bytes.now }
        ensures room { self.new.room + length bytes.now ≡ self.old.room }
    {
        put_bytes(bytes, &mut self.room, self.end);
        self.end += bytes.len();
    }

    /// Holds the line of an event record that a printer makes out of its text, if there is room for it. Whether it
    /// does.
    #[inline(always)]
    pub(crate) fn put_line(
        &mut self,
        printer: &mut Printer,
        event: &EventText<'_>,
        last: Option<i64>,
    ) -> bool
        ensures bytes { IsTrue result →
            self.new.bytes ≡ self.old.bytes ++ text_line printer.old.style last event.now }
        ensures none { result ≡ false → self.new ≡ self.old }
        ensures style { printer.new.style ≡ printer.old.style }
    {
        let Some(end) = printer.put_line(event, last, &mut self.room, self.end) else {
            return false;
        };
        self.end = end;
        true
    }

    /// Holds what a reader gives at once, up to the room, where nothing is held, and answers how many bytes.
    pub(crate) fn fill<R: Read>(&mut self, reader: &mut R) -> io::Result<usize>
        requires nothing { self.old.bytes ≡ [] }
        requires room { 0 < self.old.room }
        ensures count { IfOk result (λ count. length self.new.bytes ≡ count) }
        ensures bytes { OnOk result
            (Consumes (R.remaining reader.old) (R.remaining reader.new) self.new.bytes) }
        ensures end { OnOk result (self.new.bytes ≡ [] → IsAtEnd (R.remaining reader.new)) }
        ensures failed { OnErr result (Keeps (R.remaining reader.old) (R.remaining reader.new)) }
        ensures none { OnErr result (self.new.bytes ≡ []) }
    {
        self.begin = 0;
        self.end = 0;
        self.end = read_uninterrupted(reader, &mut self.room)?;
        Ok(self.end)
    }

    /// Leaves the first bytes, so many, to others. There is room for others once nothing is held.
    pub(crate) fn pass(&mut self, count: usize)
        requires { count ≤ length self.old.bytes }
        ensures bytes { self.new.bytes ≡ drop count self.old.bytes }
    {
        self.begin += count;
        if self.begin == self.end {
            self.begin = 0;
            self.end = 0;
        }
    }
}

/// Writes bytes at an index of a line that has room for them.
#[inline(always)]
fn put_bytes(bytes: &[u8], line: &mut [u8], at: usize)
    requires { at + length bytes.now ≤ length line.old }
    ensures text { take (at + length bytes.now) line.new ≡ take at line.old ++ bytes.now }
    ensures same { length line.new ≡ length line.old }
{
    line[at..at + bytes.len()].copy_from_slice(bytes);
}
