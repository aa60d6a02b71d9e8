//! Copies of what a tree or a class owns.

ghost use Rattle.std.specs.Prelude.{◌≡◌, IfOk};

use ctf_list::{List, NoMemory};
use ctf_meaning::DeclaredInteger;
use std::alloc::{AllocError, Global};
use tsdl_tree::Path;

/// A copy of an integer, which shares the name of its clock.
pub fn copy_integer(integer: &DeclaredInteger) -> Result<DeclaredInteger, AllocError>
    ensures { IfOk result (λ copy. copy ≡ integer.now) }
{
    let clock = match &integer.clock {
        Some(name) => Some(name.clone()?),
        None => None,
    };
    Ok(DeclaredInteger {
        size: integer.size,
        align: integer.align,
        is_signed: integer.is_signed,
        base: integer.base,
        order: integer.order,
        is_text: integer.is_text,
        clock,
    })
}

/// A copy of the words of a path.
pub fn copied_path(alloc: Global, path: &Path) -> Result<Path, NoMemory>
    ensures { IfOk result (λ copy. copy ≡ path.now) }
{
    let mut words = Vec::with_capacity(alloc, path.len())?;
    for word in path.as_slice() {
        words.push(List::from_slice(alloc, word.as_slice())?)?;
    }
    Ok(List::from_vec(words))
}
