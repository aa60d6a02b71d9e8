//! Stamps that are appended to a text.

ghost use Rattle.std.specs.Prelude.{◌≡◌, ◌++◌, IfOk, OnErr};
ghost use Rattle.ctf_timestamp.specs.Stamps.{stamp, stamp_part};

use crate::stamper::{MOST_PART, MOST_STAMP, Stamper};
use crate::style::Style;
use ctf_clock::Moment;
use ctf_list::NoMemory;

/// Appends the stamp of a moment. Where an allocation fails the text is as it was.
pub fn append_stamp(text: &mut Vec<u8>, style: &Style, moment: Moment) -> Result<(), NoMemory>
    ensures appended { IfOk result
        (λ _. text.new.items ≡ text.old.items ++ stamp style.now moment) }
    ensures unchanged { OnErr result (text.new.items ≡ text.old.items) }
{
    let mut room = [0; MOST_STAMP];
    let end = Stamper::new(*style).put_stamp(moment, &mut room, 0);
    text.extend_from_slice(&room[..end])?;
    Ok(())
}

/// Appends the beginning of a line: the stamp of its moment in brackets and, where the style has it, the time since
/// `last` in parentheses, which is in nanoseconds since the epoch. A `last` after the moment is printed as one that is
/// as far before it, with `+`. Nothing for a line without a moment. Where an allocation fails the text is as it was.
pub fn append_part(
    text: &mut Vec<u8>,
    style: &Style,
    moment: Option<Moment>,
    last: Option<i64>,
) -> Result<(), NoMemory>
    ensures appended { IfOk result
        (λ _. text.new.items ≡ text.old.items ++ stamp_part style.now moment last) }
    ensures unchanged { OnErr result (text.new.items ≡ text.old.items) }
{
    let mut room = [0; MOST_PART];
    let end = Stamper::new(*style).put_part(moment, last, &mut room, 0);
    text.extend_from_slice(&room[..end])?;
    Ok(())
}
