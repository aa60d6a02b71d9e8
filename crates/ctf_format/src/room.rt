//! Room in a line's buffer.

ghost use Rattle.std.specs.Prelude.{◌≡◌, ◌+◌, ◌*◌, ◌/◌, ◌^◌, ◌<◌, ◌≤◌, take, vec_len, IfOk, IsTrue};

use ctf_list::NoMemory;

/// From how many bytes on a buffer is long.
const LONG: usize = 1 << 20;

/// Makes room for so many bytes at an index of a buffer. What is before the index is kept, and the bytes
/// after it are unspecified. It fails where an allocation fails, and the buffer is then unspecified.
#[inline(always)]
pub fn with_room(need: usize, buffer: &mut Vec<u8>, at: usize) -> Result<(), NoMemory>
    requires { at ≤ vec_len buffer.old }
    ensures kept { IfOk result (λ _. take at buffer.new.items ≡ take at buffer.old.items) }
    ensures room { IfOk result (λ _. at + need ≤ vec_len buffer.new) }
{
    if need <= buffer.len() - at {
        return Ok(());
    }
    grow(need, buffer, at)
}

/// Makes room for the text of so many bytes, escaped, and for 8 bytes more.
#[inline(always)]
pub fn with_room_for_text(count: usize, buffer: &mut Vec<u8>, at: usize) -> Result<(), NoMemory>
    requires index { at ≤ vec_len buffer.old }
    requires short { count ≤ 2 ^ 63 }
    ensures kept { IfOk result (λ _. take at buffer.new.items ≡ take at buffer.old.items) }
    ensures room { IfOk result (λ _. at + 4 * count + 8 ≤ vec_len buffer.new) }
{
    if holds_text(count, buffer.len() - at) {
        return Ok(());
    }
    let Some(need) = (count + 2).checked_mul(4) else {
        return Err(NoMemory);
    };
    grow(need, buffer, at)
}

/// Whether so much room holds the text of so many bytes, escaped, and 8 bytes more. It may also say no where
/// there is just as much room as that.
#[inline(always)]
pub fn holds_text(count: usize, room: usize) -> bool
    requires { count ≤ 2 ^ 63 }
    ensures { IsTrue result → 4 * count + 8 ≤ room }
{
    count + 1 < room / 4
}

/// Makes room where the buffer is too short.
#[cold]
#[inline(never)]
fn grow(need: usize, buffer: &mut Vec<u8>, at: usize) -> Result<(), NoMemory>
    requires { at ≤ vec_len buffer.old }
    ensures kept { IfOk result (λ _. take at buffer.new.items ≡ take at buffer.old.items) }
    ensures room { IfOk result (λ _. at + need ≤ vec_len buffer.new) }
{
    let Some(end) = at.checked_add(need) else {
        return Err(NoMemory);
    };
    let length = end.max(longer(buffer.len()));
    buffer.reserve_exact(length.saturating_sub(buffer.len()))?;
    buffer.resize(length, 0)?;
    Ok(())
}

/// How long, in bytes, a buffer of this length gets at the least. A short one doubles, so that it rarely moves; one
/// from 1 MiB on gets a sixteenth longer, so that little of its memory is unused.
fn longer(length: usize) -> usize
    ensures short { length < LONG → result ≤ 2 * length }
    ensures long { LONG ≤ length → result ≤ length + length / 16 }
    ensures more { length ≤ result }
{
    let more = if length < LONG { length } else { length / 16 };
    length.saturating_add(more)
}
