//! The bytes of a packet, as they come.

ghost use Rattle.std.specs.Prelude.{◌≡◌, ◌≤◌, ◌<◌, ◌+◌, [], ◌++◌, length, max, min, take, None, IsTrue, IfOk, IfSome, IfErr, OnOk, OnErr};
ghost use Rattle.ctf_bits.specs.declared.source.Ending.TheVariants.{Clean, Failed};
ghost use Rattle.ctf_packet.specs.declared.fault.StreamFault.TheVariants.{NoMemory};
ghost use Rattle.ctf_fetch.specs.Filling.{Fills, Counts};
ghost use Rattle.ctf_fetch.specs.Keeping.{KeepsBytes};

use ctf_bits::{Ending, Source, SourceFault};
use ctf_packet::StreamFault;
use std::alloc::Global;
use std::marker::Model;

/// An end of a packet that is so many bytes away, or fewer, is asked for at once.
const NEAR: usize = 65_536;

/// How many bytes of a longer way are asked for at the most before as many came.
const FIRST: usize = 4_096;

/// How many are at the most: so hardly more memory is filled than bytes come, however long the packet may be.
const MOST: usize = 1_048_576;

/// How many bytes more there is room for, so that also a packet's last numbers are read eight bytes at a time.
const PADDING: usize = 8;

/// The bytes of a packet that came so far. Contracts see them.
#[derive(Drop)]
pub struct Buffer {
    /// After those that came are bytes of earlier packets, or zeros.
    bytes: Vec<u8>,
    filled: usize,
}

impl Model for Buffer {
    ghost use Rattle.std.specs.Prelude.{ℕ, List, take, ◌≤◌, length};

    ghost Value = { List ℕ };

    ghost view = { λ buffer. take buffer.filled buffer.bytes.items };

    ghost invariant = { λ buffer. buffer.filled ≤ length buffer.bytes.items };
}

/// Whether as many bytes came as were asked for.
#[derive(Clone, Copy)]
pub(crate) enum Filled {
    Whole,
    /// The stream ended before.
    Ended(Ending),
}

impl Buffer {
    /// No bytes. No memory is taken.
    pub fn new(alloc: Global) -> Buffer
        ensures { result ≡ [] }
    {
        Buffer {
            bytes: Vec::new(alloc),
            filled: 0,
        }
    }

    /// The bytes that came.
    pub fn as_slice(&self) -> &[u8]
        ensures { result.now ≡ self.now }
    {
        &self.bytes[..self.filled]
    }

    /// The bytes, and mostly eight more, which mean nothing.
    pub fn padded(&self) -> &[u8]
        ensures { take (length self.now) result.now ≡ self.now }
    {
        let end = (self.filled + PADDING).min(self.bytes.len());
        &self.bytes[..end]
    }

    /// How many bytes there are.
    pub fn len(&self) -> usize
        ensures { result ≡ length self.now }
    {
        self.filled
    }

    /// Keeps no byte. The memory is kept.
    pub fn clear(&mut self)
        ensures { self.new ≡ [] }
    {
        self.filled = 0;
    }

    /// Keeps the memory of its bytes alone, and of the padding.
    pub(crate) fn fit(&mut self)
        ensures { self.new ≡ self.old }
    {
        keep_first(&mut self.bytes, self.filled + PADDING);
    }

    /// Takes bytes of a source until there are `target`, or it ends.
    #[inline(always)]
    pub(crate) fn fill<S: Source>(
        &mut self,
        source: &mut S,
        target: usize,
    ) -> Result<Filled, StreamFault>
        requires { length self.old ≤ target }
        ensures keeps { KeepsBytes S.Source source.old source.new self.old self.new }
        ensures fills { IsTrue (S.tells source.old) →
            Fills (S.ending source.old) (S.left source.new) result }
        ensures counts { Counts target (length self.new) result }
        ensures bounded { length self.new ≤ target }
        ensures refused { IfErr result (λ fault. fault ≡ NoMemory) }
    {
        while self.filled < target {
            if let Some(ending) = self.take_some(source, target)? {
                return Ok(Filled::Ended(ending));
            }
        }
        Ok(Filled::Whole)
    }

    /// Takes some bytes of a source, so that there are at most `target`. It answers how the source ends, where that
    /// gave none.
    #[inline(always)]
    fn take_some<S: Source>(
        &mut self,
        source: &mut S,
        target: usize,
    ) -> Result<Option<Ending>, StreamFault>
        requires { length self.old < target }
        ensures keeps { KeepsBytes S.Source source.old source.new self.old self.new }
        ensures ended { IsTrue (S.tells source.old) →
            IfOk result (λ ended.
            IfSome ended (λ e. (e ≡ S.ending source.old) × (S.left source.new ≡ []))) }
        ensures more { IfOk result (λ ended. ended ≡ None → length self.old < length self.new) }
        ensures refused { IfErr result (λ fault. fault ≡ NoMemory) }
        ensures nothing { IfOk result
            (λ ended. IfSome ended (λ _. length self.old ≡ length self.new)) }
        ensures bounded { length self.new ≤ target }
    {
        grow(&mut self.bytes, self.filled, target)?;
        let end = (self.bytes.len() - PADDING).min(target);
        match take_after(source, &mut self.bytes, self.filled, end) {
            Err(_) => Ok(Some(Ending::Failed)),
            Ok(0) => Ok(Some(Ending::Clean)),
            Ok(count) => {
                self.filled += count;
                Ok(None)
            }
        }
    }
}

/// Takes bytes of a source after the first ones, up to `end` at most, and answers how many.
#[inline(always)]
fn take_after<S: Source>(
    source: &mut S,
    bytes: &mut [u8],
    filled: usize,
    end: usize,
) -> Result<usize, SourceFault>
    requires some { filled < end }
    requires there { end ≤ length bytes.old }
    ensures tells { IsTrue (S.tells source.old) → IsTrue (S.tells source.new) }
    ensures same_end { IsTrue (S.tells source.old) → S.ending source.new ≡ S.ending source.old }
    ensures first { take filled bytes.new ≡ take filled bytes.old }
    ensures within { IfOk result (λ count. filled + count ≤ end) }
    ensures kept { IsTrue (S.tells source.old) →
        IfOk result (λ count. take (filled + count) bytes.new ++ S.left source.new ≡
        take filled bytes.old ++ S.left source.old) }
    ensures clean { IsTrue (S.tells source.old) →
        IfOk result (λ count. count ≡ 0 → (S.ending source.old ≡ Clean) ×
        (S.left source.new ≡ [])) }
    ensures failed { IsTrue (S.tells source.old) →
        OnErr result ((S.ending source.old ≡ Failed) × (S.left source.old ≡ []) ×
        (S.left source.new ≡ [])) }
{
    source.take(&mut bytes[filled..end])
}

/// Makes room for some bytes after the first ones, and for the padding: up to `target` where that is near, else for as
/// many as came, `FIRST` at least and `MOST` at most.
#[inline(always)]
fn grow(bytes: &mut Vec<u8>, filled: usize, target: usize) -> Result<(), StreamFault>
    requires few { filled < target }
    requires there { filled ≤ length bytes.old.items }
    ensures first { take filled bytes.new.items ≡ take filled bytes.old.items }
    ensures there { filled ≤ length bytes.new.items }
    ensures room { OnOk result (filled + PADDING < length bytes.new.items) }
    ensures near { target ≤ filled + 65536 →
        length bytes.new.items ≤ max (length bytes.old.items) (target + PADDING) }
    ensures far { filled + 65536 < target → length bytes.new.items ≤
        max (length bytes.old.items) (filled + min (max filled 4096) 1048576 + PADDING) }
    ensures refused { IfErr result (λ fault. fault ≡ NoMemory) }
{
    if filled + PADDING < bytes.len() {
        return Ok(());
    }
    resize(bytes, filled, target)
}

/// Makes this room. Mostly it is there, so this is kept out of the way.
#[cold]
#[inline(never)]
fn resize(bytes: &mut Vec<u8>, filled: usize, target: usize) -> Result<(), StreamFault>
    requires few { filled < target }
    requires there { filled ≤ length bytes.old.items }
    ensures first { take filled bytes.new.items ≡ take filled bytes.old.items }
    ensures there { filled ≤ length bytes.new.items }
    ensures room { OnOk result (filled + PADDING < length bytes.new.items) }
    ensures near { target ≤ filled + 65536 →
        length bytes.new.items ≤ max (length bytes.old.items) (target + PADDING) }
    ensures far { filled + 65536 < target → length bytes.new.items ≤
        max (length bytes.old.items) (filled + min (max filled 4096) 1048576 + PADDING) }
    ensures refused { IfErr result (λ fault. fault ≡ NoMemory) }
{
    let left = target - filled;
    let more = if left <= NEAR {
        left
    } else {
        filled.max(FIRST).min(MOST).min(left)
    };
    match bytes.resize((filled + more).saturating_add(PADDING), 0) {
        Ok(()) => Ok(()),
        Err(_) => Err(StreamFault::NoMemory),
    }
}

/// Keeps so many of the first bytes, and no memory for more where less can be had.
fn keep_first(bytes: &mut Vec<u8>, count: usize)
    ensures { bytes.new.items ≡ take count bytes.old.items }
{
    bytes.truncate(count);
    bytes.shrink_to_fit();
}
