//! What values are decoded in.

ghost use Rattle.std.specs.Prelude.{◌≡◌, ◌≤◌, ◌<◌, ◌*◌, ◌^◌, length};
ghost use Rattle.std.specs.Int.{next_multiple_of};
ghost use Rattle.ctf_decode.specs.declared.fault.DecodeFault.TheVariants.{ContentEnds, NoOption, TooManyValues, NoMemory};

use crate::fault::DecodeFault;
use crate::scopes::Scopes;
use crate::value::Value;
use ctf_bits::up;
use ctf_class::Align;
use std::alloc::Global;

/// A packet's bytes, the place in bits where its content ends, and the values of earlier scopes.
#[derive(Clone, Copy)]
pub struct Packet<'a> {
    pub bytes: &'a [u8],
    pub content: u64,
    pub scopes: &'a Scopes,
    ghost bounded: { content ≤ 2 ^ 62 },
    ghost held: { content ≤ 8 * length bytes.now },
}

/// The earlier members of the structures around a value.
#[derive(Drop)]
pub enum Frame<'a> {
    Top,
    Within(&'a [Value], &'a Frame<'a>),
}

/// What is around a value that is decoded: the packet, and the earlier members of the structures.
#[derive(Clone, Copy)]
pub(crate) struct Around<'a> {
    /// What the memory of the value is taken from.
    pub alloc: Global,
    /// A copy and no reference, as each integer asks for its fields.
    pub packet: Packet<'a>,
    pub frame: &'a Frame<'a>,
}

/// How far decoding has come.
#[derive(Clone, Copy, PartialEq, Eq)]
pub struct DecodeProgress {
    /// The place where the last value ends, in bits from the packet's first one.
    pub end: u64,
    /// How many values were begun so far.
    pub spent: u64,
}

/// How far decoding has come. Calls hand it on in place: results of many words cost more than the values.
#[derive(Drop)]
pub(crate) struct Cursor {
    /// The place where the last value ends, in bits from the packet's first one.
    pub end: u64,
    /// How many values were begun so far.
    pub spent: u64,
    /// Why it stopped, once it has.
    pub fault: DecodeFault,
}

/// No value was decoded. The cursor has the fault.
#[derive(Clone, Copy)]
pub(crate) struct Stopped;

impl Cursor {
    /// Stops for a fault.
    #[cold]
    #[inline(never)]
    pub(crate) fn stop(&mut self, fault: DecodeFault) -> Stopped
        ensures { self.new.fault ≡ fault }
    {
        self.fault = fault;
        Stopped
    }

    /// Stops for a place, in bits, that the content does not reach.
    #[cold]
    #[inline(never)]
    pub(crate) fn stop_beyond(&mut self, end: u64) -> Stopped
        ensures { self.new.fault ≡ ContentEnds end }
    {
        self.stop(DecodeFault::ContentEnds(u128::from(end)))
    }

    /// Stops where an allocation fails.
    #[cold]
    #[inline(never)]
    pub(crate) fn stop_refused(&mut self) -> Stopped
        ensures { self.new.fault ≡ NoMemory }
    {
        self.stop(DecodeFault::NoMemory)
    }

    /// Stops for a tag that chooses no option.
    #[cold]
    #[inline(never)]
    pub(crate) fn stop_unchosen(&mut self) -> Stopped
        ensures { self.new.fault ≡ NoOption }
    {
        self.stop(DecodeFault::NoOption)
    }

    /// Stops for too many values.
    #[cold]
    #[inline(never)]
    pub(crate) fn stop_full(&mut self) -> Stopped
        ensures { self.new.fault ≡ TooManyValues }
    {
        self.stop(DecodeFault::TooManyValues)
    }
}

/// Where a field begins that is next after a place, both in bits.
pub(crate) fn begin_at(place: u64, align: Align) -> u64
    requires { place ≤ 2 ^ 62 }
    ensures value { result ≡ next_multiple_of place align }
    ensures bound { result < 2 ^ 63 }
{
    align.up(place)
}

/// Where a byte begins that is next after a place, both in bits.
pub(crate) fn byte_at(place: u64) -> u64
    requires { place ≤ 2 ^ 62 }
    ensures value { result ≡ next_multiple_of place 8 }
    ensures bound { result < 2 ^ 63 }
{
    up(place, 8)
}
