//! What is before an element.

ghost use Rattle.std.specs.Prelude.{◌≡◌, ◌+◌, ◌++◌, ◌∷◌, [], ◌≤◌, length, take, vec_len, codes, IfOk};
ghost use Rattle.std.specs.Fmt.{decimal};
ghost use Rattle.ctf_format.specs.Put.{IsPut};

use crate::decimal::put_unsigned;
use crate::mark::{put_bytes, put_lead};
use crate::room::with_room;
use ctf_class::LONGEST_NUMBER;
use ctf_list::NoMemory;

/// How many bytes of a line there may be where an element of an array ends, which is more than an array of empty
/// structures takes. Arrays in one another could be written far beyond the most values that a record has, as each counts
/// its own first; a longer line has its values first.
pub(crate) const LONGEST_ROW: usize = 1 << 29;

/// What is printed before an element of an array.
#[derive(Clone, Copy)]
pub(crate) struct ElementLead {
    /// `[` before the first element, a comma before each other.
    pub(crate) mark: u8,
    /// How many elements are before it.
    pub(crate) index: usize,
}

/// Writes the mark of an element, a space and its index at an index of a buffer, and gives the index after
/// them. There is room for a number more. What is before the index is kept. At an error the buffer is an
/// unspecified buffer.
pub(crate) fn put_index(
    lead: ElementLead,
    buffer: &mut Vec<u8>,
    at: usize,
) -> Result<usize, NoMemory>
    requires { at ≤ vec_len buffer.old }
    ensures put { let piece = lead.mark ∷ 32 ∷ 91 ∷ (decimal lead.index ++ codes "] = ") in
        IfOk result (IsPut buffer.old at piece buffer.new) }
    ensures room { IfOk result (λ end. end + LONGEST_NUMBER ≤ vec_len buffer.new) }
{
    with_room(LONGEST_NUMBER + 27, buffer, at)?;
    Ok(put_brackets(lead, buffer.as_mut_slice(), at))
}

/// Writes the text of an index in a line that has room for it.
fn put_brackets(lead: ElementLead, line: &mut [u8], at: usize) -> usize
    requires { at + 27 ≤ length line.old }
    ensures text { take result line.new ≡
        take at line.old ++ (lead.mark ∷ 32 ∷ 91 ∷ (decimal lead.index ++ codes "] = ")) }
    ensures near { result ≤ at + 27 }
{
    let begin = put_open(lead.mark, line, at);
    let end = put_index_digits(lead.index, line, begin);
    put_bytes(b"] = ", line, end)
}

/// Writes an index in decimal. Mostly it has one digit.
#[inline(always)]
fn put_index_digits(index: usize, line: &mut [u8], at: usize) -> usize
    requires { at + 20 ≤ length line.old }
    ensures text { take result line.new ≡ take at line.old ++ decimal index }
    ensures near { result ≤ at + 20 }
    ensures length { length line.new ≡ length line.old }
{
    if index < 10 {
        line[at] = b'0' + index as u8;
        return at + 1;
    }
    put_unsigned(index as u64, line, at)
}

/// Writes what is before the index of an element.
fn put_open(mark: u8, line: &mut [u8], at: usize) -> usize
    requires { at + 3 ≤ length line.old }
    ensures text { take result line.new ≡ take at line.old ++ (mark ∷ 32 ∷ 91 ∷ []) }
    ensures end { result ≡ at + 3 }
{
    let end = put_lead(mark, line, at);
    line[end] = b'[';
    end + 1
}
