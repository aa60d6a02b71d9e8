//! The lines of faults.

ghost use Rattle.std.specs.Prelude.{◌≡◌, ◌++◌, IfOk, OnOk, option_copied};
ghost use Rattle.ctf_faults.specs.Lines as lines;

use crate::load::LoadFault;
use crate::table::{append_load, stream_text};
use ctf_class::escaped;
use ctf_list::NoMemory;
use ctf_packet::StreamFault;
use std::alloc::Global;

/// The line of a fault of the metadata of a trace, with its newline. The trace is named where there are several.
pub fn metadata_line(
    alloc: Global,
    fault: &LoadFault,
    trace: Option<&str>,
) -> Result<Vec<u8>, NoMemory>
    ensures { IfOk result (λ text.
        text.items ≡ lines.metadata_line fault.now (option_copied trace.entry)) }
{
    let mut text = Vec::from_slice(alloc, b"ERROR: ")?;
    append_load(&mut text, fault)?;
    append_trace(alloc, &mut text, trace)?;
    text.extend_from_slice(b"\n")?;
    Ok(text)
}

/// Appends which trace a line speaks of.
fn append_trace(alloc: Global, text: &mut Vec<u8>, trace: Option<&str>) -> Result<(), NoMemory>
    ensures { OnOk result (text.new.items ≡
        text.old.items ++ lines.of_trace (option_copied trace.entry)) }
{
    match trace {
        None => Ok(()),
        Some(name) => {
            text.extend_from_slice(b" in trace ")?;
            append_quoted(alloc, text, name)
        }
    }
}

/// Appends a name in its quotes.
fn append_quoted(alloc: Global, text: &mut Vec<u8>, name: &str) -> Result<(), NoMemory>
    ensures { OnOk result (text.new.items ≡ text.old.items ++ lines.quoted name.now) }
{
    let name = escaped(alloc, name.as_bytes())?;
    text.extend_from_slice(b"\"")?;
    text.extend_from_slice(&name)?;
    text.extend_from_slice(b"\"")?;
    Ok(())
}

/// The line of a fault of the stream of this name, with its newline.
pub fn stream_line(alloc: Global, fault: StreamFault, name: &str) -> Result<Vec<u8>, NoMemory>
    ensures { IfOk result (λ text. text.items ≡ lines.stream_line fault name.now) }
{
    let mut text = Vec::from_slice(alloc, b"ERROR: ")?;
    text.extend_from_slice(stream_text(fault))?;
    text.extend_from_slice(b" in stream ")?;
    append_quoted(alloc, &mut text, name)?;
    text.extend_from_slice(b"\n")?;
    Ok(text)
}
