//! Why a stream goes no further.

use thiserror::Error;

/// Why a stream goes no further.
#[derive(Clone, Copy, Debug, PartialEq, Eq, Error)]
pub enum StreamFault {
    /// F1: the stream ends inside a packet.
    #[error("packet cut short")]
    CutShort,
    /// F2: a packet's magic number is another one (CTF 1.8.3, section 5.1).
    #[error("packet magic is wrong")]
    WrongMagic,
    /// F3: a packet has another identifier than its trace (CTF 1.8.3, section 5.1).
    #[error("packet uuid differs")]
    OtherTrace,
    /// F4: a packet's stream class is none of the trace, or another than that of the packets before it.
    #[error("no such stream class")]
    UnknownStream,
    /// F5: the sizes of a packet or of its content can't be, or it is longer than 268,435,456 bytes.
    #[error("impossible packet sizes")]
    ImpossibleSizes,
    /// F6: the content of a packet ends inside an event record.
    #[error("content ends inside a field")]
    ContentEnds,
    /// F7: the event header names no event class of the stream.
    #[error("no such event class")]
    UnknownEvent,
    /// F8: a variant's tag names none of its options.
    #[error("no option for the tag")]
    NoOption,
    /// F9: the clock falls or leaves its range.
    #[error("clock falls or leaves its range")]
    ClockRefused,
    /// F10: an event record of no bits.
    #[error("event of zero bits")]
    EmptyEvent,
    /// F11: more than 16,777,216 values in an event record, or in the header and context of a packet.
    #[error("too many values")]
    TooManyValues,
    /// F13: a read failed.
    #[error("read failed")]
    ReadFailed,
    /// F14: the stream is longer than 2^60 bytes.
    #[error("stream too long")]
    StreamTooLong,
    /// An allocation failed.
    #[error("no memory")]
    NoMemory,
}
