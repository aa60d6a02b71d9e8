//! Bytes that are read before they are asked for.

ghost use Rattle.std.specs.Prelude.{◌≡◌, ◌<◌, ◌≤◌, [], ◌++◌, length, take, IfNone, IfSome, OnOk, OnErr};
ghost use Rattle.std.specs.Io.{ReadsAtMost};
ghost use Rattle.std.specs.Io.KnownBytes.{ReadConsumes, Consumes, Keeps, IsAtEnd, prepend_known};

use crate::held::Held;
use ctf_bits::read_uninterrupted;
use std::alloc::Global;
use std::io::{self, Read};

/// From how many bytes on a read is no small one.
const LARGE: usize = 8_192;

/// The least room that is worth having.
const LEAST: usize = 512;

/// The bytes that small reads gave are divided by this: so many are read ahead.
const PART: usize = 4;

/// Bytes of a reader that are held until they are asked for. There is no room for any until small reads come, and none
/// again after a large one and at the end.
#[derive(Drop)]
pub(crate) struct ReadAhead {
    alloc: Global,
    held: Held,
    /// How many bytes small reads gave since there was no room.
    small: usize,
}

impl ReadAhead {
    /// Holds nothing, and takes no memory.
    pub(crate) fn new(alloc: Global) -> ReadAhead
        ensures { result.held.bytes ≡ [] }
    {
        ReadAhead {
            alloc,
            held: Held::none(alloc),
            small: 0,
        }
    }

    /// Gives the next bytes: those that are held, or else those of the reader, of which up to `most` more may then be
    /// held. Mostly some are held, which takes no call.
    #[inline(always)]
    pub(crate) fn read<R: Read>(
        &mut self,
        reader: &mut R,
        most: usize,
        buf: &mut [u8],
    ) -> io::Result<usize>
        requires { 0 < length buf.old }
        ensures bound { ReadsAtMost result buf.new }
        ensures bytes { ReadConsumes (prepend_known self.old.held.bytes (R.remaining reader.old))
            (prepend_known self.new.held.bytes (R.remaining reader.new)) result buf.new }
    {
        if !self.held.as_slice().is_empty() {
            return Ok(give(&mut self.held, buf));
        }
        self.read_next(reader, most, buf)
    }

    /// Gives the first of the bytes that are held, and answers how many: `None` where none is.
    #[inline(always)]
    pub(crate) fn give_held(&mut self, buf: &mut [u8]) -> Option<usize>
        requires { 0 < length buf.old }
        ensures some { IfSome result (λ count. (0 < count) × (count ≤ length buf.new)) }
        ensures bytes { IfSome result
            (λ count. self.old.held.bytes ≡ take count buf.new ++ self.new.held.bytes) }
        ensures none { IfNone result
            ((self.old.held.bytes ≡ []) × (self.new.held.bytes ≡ [])) }
    {
        if self.held.as_slice().is_empty() {
            return None;
        }
        Some(give(&mut self.held, buf))
    }

    /// Gives the next bytes of a reader, where nothing is held. Up to `most` bytes after them may be held.
    #[inline(never)]
    fn read_next<R: Read>(
        &mut self,
        reader: &mut R,
        most: usize,
        buf: &mut [u8],
    ) -> io::Result<usize>
        requires nothing { self.old.held.bytes ≡ [] }
        requires some { 0 < length buf.old }
        ensures bound { ReadsAtMost result buf.new }
        ensures bytes { ReadConsumes (R.remaining reader.old)
            (prepend_known self.new.held.bytes (R.remaining reader.new)) result buf.new }
    {
        if buf.len() >= LARGE {
            self.give_back();
            return read_uninterrupted(reader, buf);
        }
        self.grow(most);
        if self.held.room() <= buf.len() {
            return self.read_past(reader, buf);
        }
        self.fill(reader)?;
        Ok(give(&mut self.held, buf))
    }

    /// Reads past the room, where nothing is held.
    fn read_past<R: Read>(&mut self, reader: &mut R, buf: &mut [u8]) -> io::Result<usize>
        ensures held { self.new.held ≡ self.old.held }
        ensures bound { ReadsAtMost result buf.new }
        ensures bytes { ReadConsumes (R.remaining reader.old) (R.remaining reader.new) result
            buf.new }
    {
        let count = read_uninterrupted(reader, buf)?;
        self.small = self.small.saturating_add(count);
        Ok(count)
    }

    /// Reads into the room, where nothing is held. At the end it gives back the room.
    fn fill<R: Read>(&mut self, reader: &mut R) -> io::Result<()>
        requires nothing { self.old.held.bytes ≡ [] }
        requires room { 0 < self.old.held.room }
        ensures bytes { OnOk result
            (Consumes (R.remaining reader.old) (R.remaining reader.new) self.new.held.bytes) }
        ensures end { OnOk result (self.new.held.bytes ≡ [] → IsAtEnd (R.remaining reader.new)) }
        ensures failed { OnErr result (Keeps (R.remaining reader.old) (R.remaining reader.new)) }
        ensures none { OnErr result (self.new.held.bytes ≡ []) }
    {
        let count = self.held.fill(reader)?;
        self.small = self.small.saturating_add(count);
        if count == 0 {
            self.give_back();
        }
        Ok(())
    }

    /// Makes more room where small reads gave enough, and nothing is held.
    fn grow(&mut self, most: usize)
        requires { self.old.held.bytes ≡ [] }
        ensures { self.new.held.bytes ≡ [] }
    {
        let wanted = (self.small / PART).min(most);
        if wanted >= LEAST && wanted / 2 >= self.held.room() {
            // Where an allocation fails, less is read ahead.
            if let Ok(held) = Held::new(self.alloc, wanted) {
                self.held = held;
            }
        }
    }

    /// Holds nothing more, and has room as before.
    pub(crate) fn forget(&mut self)
        ensures { self.new.held.bytes ≡ [] }
    {
        let count = self.held.as_slice().len();
        self.held.pass(count);
    }

    /// Gives back the room, where nothing is held.
    fn give_back(&mut self)
        ensures { self.new.held.bytes ≡ [] }
    {
        self.held = Held::none(self.alloc);
        self.small = 0;
    }
}

/// Gives the first of the bytes that are held, as many as go into the buffer, and answers how many.
#[inline(always)]
fn give(held: &mut Held, buf: &mut [u8]) -> usize
    requires { 0 < length buf.old }
    ensures bound { result ≤ length buf.new }
    ensures bytes { held.old.bytes ≡ take result buf.new ++ held.new.bytes }
    ensures none { result ≡ 0 → held.old.bytes ≡ [] }
{
    let bytes = held.as_slice();
    let count = buf.len().min(bytes.len());
    buf[..count].copy_from_slice(&bytes[..count]);
    held.pass(count);
    count
}
