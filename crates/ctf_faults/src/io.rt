//! The line of a path that cannot be read.

ghost use Rattle.std.specs.Prelude.{◌≡◌, IfOk};
ghost use Rattle.ctf_faults.specs.Lines.{path_line};

use ctf_class::escaped;
use ctf_list::NoMemory;
use std::alloc::Global;

/// The line of a path that cannot be read, I1, with its newline.
pub fn io_line(alloc: Global, path: &str) -> Result<Vec<u8>, NoMemory>
    ensures { IfOk result (λ text. text.items ≡ path_line path.now) }
{
    let path = escaped(alloc, path.as_bytes())?;
    let mut text = Vec::from_slice(alloc, b"ERROR: I1: cannot read ")?;
    text.extend_from_slice(&path)?;
    text.extend_from_slice(b"\n")?;
    Ok(text)
}
