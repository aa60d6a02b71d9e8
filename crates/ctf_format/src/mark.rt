//! What is around texts.

ghost use Rattle.std.specs.Prelude.{◌≡◌, ◌+◌, ◌*◌, ◌++◌, ◌∷◌, [], ◌≤◌, length, take, vec_len, IfOk};
ghost use Rattle.ctf_format.specs.Put.{IsPut};

use crate::room::with_room;
use ctf_class::PreparedText;
use ctf_list::NoMemory;

/// Writes bytes at an index of a line that has room for them, and gives the index after them.
#[inline(always)]
pub fn put_bytes(bytes: &[u8], line: &mut [u8], at: usize) -> usize
    requires { at + length bytes.now ≤ length line.old }
    ensures text { take result line.new ≡ take at line.old ++ bytes.now }
    ensures end { result ≡ at + length bytes.now }
{
    let end = at + bytes.len();
    line[at..end].copy_from_slice(bytes);
    end
}

/// Writes bytes in a line that has room for them. Mostly there are 8 to 32, which their first and their last ones
/// cover, so that they are written without a call.
#[inline(always)]
pub fn put_short_bytes(bytes: &[u8], line: &mut [u8], at: usize) -> usize
    requires { at + length bytes.now ≤ length line.old }
    ensures text { take result line.new ≡ take at line.old ++ bytes.now }
    ensures end { result ≡ at + length bytes.now }
{
    match bytes.len() {
        8..=16 => put_both_words(bytes, line, at),
        17..=32 => put_both_ends::<16>(bytes, line, at),
        _ => put_bytes(bytes, line, at),
    }
}

/// Writes bytes that their first and their last so many cover. What is in both is written twice.
#[inline(always)]
pub fn put_both_ends<const COUNT: usize>(bytes: &[u8], line: &mut [u8], at: usize) -> usize
    requires enough { COUNT ≤ length bytes.now }
    requires covered { length bytes.now ≤ 2 * COUNT }
    requires room { at + length bytes.now ≤ length line.old }
    ensures text { take result line.new ≡ take at line.old ++ bytes.now }
    ensures end { result ≡ at + length bytes.now }
{
    let begin = bytes.len() - COUNT;
    put_bytes(&bytes[..COUNT], line, at);
    put_bytes(&bytes[begin..], line, at + begin)
}

/// Writes 8 to 16 bytes as two words.
#[inline(always)]
fn put_both_words(bytes: &[u8], line: &mut [u8], at: usize) -> usize
    requires enough { 8 ≤ length bytes.now }
    requires covered { length bytes.now ≤ 16 }
    requires room { at + length bytes.now ≤ length line.old }
    ensures text { take result line.new ≡ take at line.old ++ bytes.now }
    ensures end { result ≡ at + length bytes.now }
{
    let begin = bytes.len() - 8;
    put_eight(&bytes[..8], line, at);
    put_eight(&bytes[begin..], line, at + begin)
}

/// Writes eight bytes. All are read before the first is written, so that they go as one word.
#[inline(always)]
fn put_eight(bytes: &[u8], line: &mut [u8], at: usize) -> usize
    requires eight { length bytes.now ≡ 8 }
    requires room { at + 8 ≤ length line.old }
    ensures text { take result line.new ≡ take at line.old ++ bytes.now }
    ensures end { result ≡ at + length bytes.now }
{
    let (a, b, c, d) = (bytes[0], bytes[1], bytes[2], bytes[3]);
    let (e, f, g, h) = (bytes[4], bytes[5], bytes[6], bytes[7]);
    line[at] = a;
    line[at + 1] = b;
    line[at + 2] = c;
    line[at + 3] = d;
    line[at + 4] = e;
    line[at + 5] = f;
    line[at + 6] = g;
    line[at + 7] = h;
    at + 8
}

/// Writes a mark and a space at an index of a line, and gives the index after them.
#[inline(always)]
pub fn put_lead(mark: u8, line: &mut [u8], at: usize) -> usize
    requires { at + 2 ≤ length line.old }
    ensures text { take result line.new ≡ take at line.old ++ (mark ∷ 32 ∷ []) }
    ensures end { result ≡ at + 2 }
{
    line[at] = mark;
    line[at + 1] = b' ';
    at + 2
}

/// Writes a mark, a space and a prepared text at an index of a buffer, and gives the index after them. There is
/// room for so many bytes more. What is before the index is kept. At an error the buffer is unspecified.
#[inline(always)]
pub fn put_ready(
    mark: u8,
    ready: &PreparedText,
    more: usize,
    buffer: &mut Vec<u8>,
    at: usize,
) -> Result<usize, NoMemory>
    requires index { at ≤ vec_len buffer.old }
    requires few { more ≤ 100 }
    ensures put { IfOk result (IsPut buffer.old at (mark ∷ 32 ∷ ready.now) buffer.new) }
    ensures room { IfOk result (λ end. end + more ≤ vec_len buffer.new) }
{
    with_room(ready.len() + more + 26, buffer, at)?;
    let line = buffer.as_mut_slice();
    let begin = put_lead(mark, line, at);
    Ok(ready.put(line, begin))
}

/// Writes a space and a mark at an index of a line, and gives the index after them.
#[inline(always)]
pub fn put_after_space(mark: u8, line: &mut [u8], at: usize) -> usize
    requires { at + 2 ≤ length line.old }
    ensures text { take result line.new ≡ take at line.old ++ (32 ∷ mark ∷ []) }
    ensures end { result ≡ at + 2 }
{
    line[at] = b' ';
    line[at + 1] = mark;
    at + 2
}

/// Writes a space and a mark after texts.
#[inline(always)]
pub fn put_end(mark: u8, buffer: &mut Vec<u8>, at: usize) -> Result<usize, NoMemory>
    requires { at ≤ vec_len buffer.old }
    ensures { IfOk result (IsPut buffer.old at (32 ∷ mark ∷ []) buffer.new) }
{
    with_room(2, buffer, at)?;
    Ok(put_after_space(mark, buffer.as_mut_slice(), at))
}

/// Writes two marks that have nothing between them.
pub fn put_nothing(left: u8, right: u8, buffer: &mut Vec<u8>, at: usize) -> Result<usize, NoMemory>
    requires { at ≤ vec_len buffer.old }
    ensures { IfOk result (IsPut buffer.old at (left ∷ 32 ∷ right ∷ []) buffer.new) }
{
    with_room(3, buffer, at)?;
    let line = buffer.as_mut_slice();
    line[at] = left;
    Ok(put_after_space(right, line, at + 1))
}
