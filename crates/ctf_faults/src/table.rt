//! The codes and texts of faults.

ghost use Rattle.std.specs.Prelude.{◌≡◌, ◌++◌, OnOk};
ghost use Rattle.ctf_faults.specs.Table as table;

use crate::load::LoadFault;
use ctf_list::NoMemory;
use ctf_meaning::ResolveFault;
use ctf_packet::StreamFault;
use itoa::Buffer;
use tsdl_parse::SyntaxFault;
use tsdl_text::{LineNumber, MetaFault};

/// The text of what nests too deep, in the syntax or in the meaning.
const TOO_DEEP: &[u8] = b"R9: nested too deep or too many classes";

/// The text of a failed allocation, which each kind of fault has.
const NO_MEMORY: &[u8] = b"O2: no memory";

/// Appends the code and the text of a fault of metadata.
pub(crate) fn append_load(text: &mut Vec<u8>, fault: &LoadFault) -> Result<(), NoMemory>
    ensures { OnOk result (text.new.items ≡ text.old.items ++ table.load_text fault.now) }
{
    match fault {
        LoadFault::Metadata(fault) => append_meta(text, fault),
        LoadFault::Text(fault) => append_meta(text, fault),
        LoadFault::Syntax(fault) => append_syntax(text, fault),
        LoadFault::Meaning(fault) => append(text, resolve_text(*fault)),
    }
}

/// Appends some bytes.
fn append(text: &mut Vec<u8>, more: &[u8]) -> Result<(), NoMemory>
    ensures { OnOk result (text.new.items ≡ text.old.items ++ more.now) }
{
    text.extend_from_slice(more)?;
    Ok(())
}

/// Appends the code and the text of a fault of metadata packets or tokens.
fn append_meta(text: &mut Vec<u8>, fault: &MetaFault) -> Result<(), NoMemory>
    ensures { OnOk result (text.new.items ≡ text.old.items ++ table.meta_text fault.now) }
{
    match fault {
        MetaFault::CutShort => append(text, b"M1: metadata packet cut short or sizes wrong"),
        MetaFault::WrongMagic => append(text, b"M2: metadata magic is wrong"),
        MetaFault::SchemeUnsupported => append(text, b"M3: metadata scheme not supported"),
        MetaFault::WrongVersion => append(text, b"M4: metadata version is not 1.8"),
        MetaFault::UuidDiffers => append(text, b"M5: metadata uuid differs"),
        MetaFault::TooLong => append(text, b"M6: metadata too long"),
        MetaFault::NoToken(line) => append_at_line(text, b"S1: no token", *line),
        MetaFault::NoMemory => append(text, NO_MEMORY),
    }
}

/// Appends the code and the text of a fault of the syntax.
fn append_syntax(text: &mut Vec<u8>, fault: &SyntaxFault) -> Result<(), NoMemory>
    ensures { OnOk result (text.new.items ≡ text.old.items ++ table.syntax_text fault.now) }
{
    match fault {
        SyntaxFault::Syntax { line } => append_at_line(text, b"S2: syntax error", *line),
        SyntaxFault::TooDeep => append(text, TOO_DEEP),
        SyntaxFault::NoMemory => append(text, NO_MEMORY),
    }
}

/// Appends a text and the line that it speaks of.
fn append_at_line(text: &mut Vec<u8>, what: &[u8], line: LineNumber) -> Result<(), NoMemory>
    ensures { OnOk result (text.new.items ≡ text.old.items ++ (what.now ++ table.at_line line)) }
{
    let mut digits = Buffer::new();
    text.extend_from_slice(what)?;
    text.extend_from_slice(b" at line ")?;
    text.extend_from_slice(digits.format(line.number()).as_bytes())?;
    Ok(())
}

/// The code and the text of a fault of the meaning.
fn resolve_text(fault: ResolveFault) -> &'static [u8]
    ensures { result.now ≡ table.resolve_text fault }
{
    match fault {
        ResolveFault::UnknownType => b"R1: unknown type",
        ResolveFault::DeclaredTwice => b"R2: name declared twice",
        ResolveFault::Attribute => b"R3: attribute missing or impossible",
        ResolveFault::FloatingPoint => b"R4: floating-point class",
        ResolveFault::SizeOrAlignment => b"R5: size or alignment impossible",
        ResolveFault::LengthOrTag => b"R6: length or tag not found or not fitting",
        ResolveFault::Clock => b"R7: clock unknown or several clocks",
        ResolveFault::Twice => b"R8: id or block twice",
        ResolveFault::TooDeep => TOO_DEEP,
        ResolveFault::NoMemory => NO_MEMORY,
    }
}

/// The code and the text of a fault of a stream.
pub(crate) fn stream_text(fault: StreamFault) -> &'static [u8]
    ensures { result.now ≡ table.stream_text fault }
{
    match fault {
        StreamFault::CutShort => b"F1: packet cut short",
        StreamFault::WrongMagic => b"F2: packet magic is wrong",
        StreamFault::OtherTrace => b"F3: packet uuid differs",
        StreamFault::UnknownStream => b"F4: no such stream class",
        StreamFault::ImpossibleSizes => b"F5: impossible packet sizes",
        StreamFault::ContentEnds => b"F6: content ends inside a field",
        StreamFault::UnknownEvent => b"F7: no such event class",
        StreamFault::NoOption => b"F8: no option for the tag",
        StreamFault::ClockRefused => b"F9: clock falls or leaves its range",
        StreamFault::EmptyEvent => b"F10: event of zero bits",
        StreamFault::TooManyValues => b"F11: too many values",
        StreamFault::ReadFailed => b"F13: read failed",
        StreamFault::StreamTooLong => b"F14: stream too long",
        StreamFault::NoMemory => NO_MEMORY,
    }
}
