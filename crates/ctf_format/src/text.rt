//! Texts of strings.

ghost use Rattle.std.specs.Prelude.{◌≡◌, ◌+◌, ◌*◌, ◌++◌, ◌∷◌, [], ◌≤◌, ◌<◌, ◌/◌, ◌%◌, length, take, vec_len, IfOk, IsTrue};
ghost use Rattle.std.specs.List.{All};
ghost use Rattle.ctf_class.specs.Escapes.{escaped, shown_byte, hex_digit};
ghost use Rattle.ctf_class.specs.Names.{label_text};
ghost use Rattle.ctf_format.specs.Put.{IsPut};

use crate::mark::{put_both_ends, put_bytes};
use crate::room::{holds_text, with_room_for_text};
use crate::window::count_plain;
use ctf_class::hex_digit;
use ctf_list::NoMemory;

/// Writes a text, escaped and in quotes, at an index of a buffer, and gives the index after it. What is
/// before the index is kept. It fails where an allocation fails, and the buffer is then unspecified.
pub fn put_quoted(bytes: &[u8], buffer: &mut Vec<u8>, at: usize) -> Result<usize, NoMemory>
    requires { at ≤ vec_len buffer.old }
    ensures { IfOk result (IsPut buffer.old at (label_text bytes.now) buffer.new) }
{
    if holds_text(bytes.len(), buffer.len() - at) {
        return Ok(put_in_quotes(bytes, buffer.as_mut_slice(), at));
    }
    put_with_room(bytes, buffer, at)
}

/// Writes a text, escaped and in quotes, where the buffer may be too short. It is rare, and so it takes no part in what
/// else is written.
#[cold]
#[inline(never)]
fn put_with_room(bytes: &[u8], buffer: &mut Vec<u8>, at: usize) -> Result<usize, NoMemory>
    requires { at ≤ vec_len buffer.old }
    ensures { IfOk result (IsPut buffer.old at (label_text bytes.now) buffer.new) }
{
    with_room_for_text(bytes.len(), buffer, at)?;
    Ok(put_in_quotes(bytes, buffer.as_mut_slice(), at))
}

/// Writes a text, escaped and in quotes, at an index of a line that has room for it.
#[inline(always)]
fn put_in_quotes(bytes: &[u8], line: &mut [u8], at: usize) -> usize
    requires { at + 4 * length bytes.now + 8 ≤ length line.old }
    ensures text { take result line.new ≡ take at line.old ++ label_text bytes.now }
    ensures near { result ≤ at + 4 * length bytes.now + 2 }
{
    line[at] = b'"';
    let end = put_escaped(bytes, line, at + 1);
    line[end] = b'"';
    end + 1
}

/// How many bytes of a long text are written at once.
const STEP: usize = 16;

/// Writes a text, escaped, at an index of a line that has room for it, and gives the index after it. It
/// goes by many bytes: mostly none of them is escaped.
#[inline(always)]
fn put_escaped(bytes: &[u8], line: &mut [u8], at: usize) -> usize
    requires { at + 4 * length bytes.now ≤ length line.old }
    ensures text { take result line.new ≡ take at line.old ++ escaped bytes.now }
    ensures near { result ≤ at + 4 * length bytes.now }
{
    if bytes.len() > 2 * STEP {
        return put_long(bytes, line, at);
    }
    put_short(bytes, line, at)
}

/// Writes a long text, escaped, by steps.
#[inline(never)]
fn put_long(bytes: &[u8], line: &mut [u8], at: usize) -> usize
    requires { at + 4 * length bytes.now ≤ length line.old }
    ensures text { take result line.new ≡ take at line.old ++ escaped bytes.now }
    ensures near { result ≤ at + 4 * length bytes.now }
{
    let steps = bytes.len().saturating_sub(STEP + 1) / STEP;
    let mut to = at;
    for i in 0..steps {
        to = put_step(&bytes[STEP * i..STEP * i + STEP], line, to);
    }
    put_short(&bytes[STEP * steps..], line, to)
}

/// Writes the bytes of a step, escaped.
#[inline(always)]
fn put_step(bytes: &[u8], line: &mut [u8], at: usize) -> usize
    requires whole { length bytes.now ≡ STEP }
    requires room { at + 4 * STEP ≤ length line.old }
    ensures text { take result line.new ≡ take at line.old ++ escaped bytes.now }
    ensures near { result ≤ at + 4 * STEP }
{
    if count_plain(bytes) < STEP {
        return put_each(bytes, line, at);
    }
    put_bytes(bytes, line, at)
}

/// Writes a text of up to two steps, escaped.
#[inline(always)]
fn put_short(bytes: &[u8], line: &mut [u8], at: usize) -> usize
    requires few { length bytes.now ≤ 2 * STEP }
    requires room { at + 4 * length bytes.now ≤ length line.old }
    ensures text { take result line.new ≡ take at line.old ++ escaped bytes.now }
    ensures near { result ≤ at + 4 * length bytes.now }
{
    match bytes.len() {
        0..=3 => put_each(bytes, line, at),
        4..=7 => put_ends::<4>(bytes, line, at),
        8..=15 => put_ends::<8>(bytes, line, at),
        _ => put_ends::<STEP>(bytes, line, at),
    }
}

/// Writes a text, escaped, that its first and its last so many bytes cover. Both are written at once: what is in
/// both of them is written twice. It is not inlined, since looking at several bytes in one step is lost where it is
/// merged for several counts.
#[inline(never)]
fn put_ends<const COUNT: usize>(bytes: &[u8], line: &mut [u8], at: usize) -> usize
    requires enough { COUNT ≤ length bytes.now }
    requires covered { length bytes.now ≤ 2 * COUNT }
    requires room { at + 4 * length bytes.now ≤ length line.old }
    ensures text { take result line.new ≡ take at line.old ++ escaped bytes.now }
    ensures near { result ≤ at + 4 * length bytes.now }
{
    let begin = bytes.len() - COUNT;
    let first = &bytes[..COUNT];
    let last = &bytes[begin..];
    if !(are_plain(first) & are_plain(last)) {
        return put_each(bytes, line, at);
    }
    put_both_ends::<COUNT>(bytes, line, at)
}

/// Whether all of some bytes are shown as they are. It looks at each of them, so that several are looked at
/// in one step.
#[inline(always)]
fn are_plain(bytes: &[u8]) -> bool
    ensures { IsTrue result → All (λ byte. shown_byte byte ≡ byte ∷ []) bytes.now }
{
    let mut plain = true;
    for byte in bytes {
        plain &= is_plain(*byte);
    }
    plain
}

/// Writes a text, escaped, byte by byte.
#[inline(never)]
fn put_each(bytes: &[u8], line: &mut [u8], at: usize) -> usize
    requires { at + 4 * length bytes.now ≤ length line.old }
    ensures text { take result line.new ≡ take at line.old ++ escaped bytes.now }
    ensures near { result ≤ at + 4 * length bytes.now }
{
    let mut to = at;
    for byte in bytes {
        to = put_byte(*byte, line, to);
    }
    to
}

/// Writes a byte, escaped where it must be.
#[inline(always)]
fn put_byte(byte: u8, line: &mut [u8], at: usize) -> usize
    requires { at + 4 ≤ length line.old }
    ensures text { take result line.new ≡ take at line.old ++ shown_byte byte }
    ensures near { result ≤ at + 4 }
{
    if is_plain(byte) {
        line[at] = byte;
        return at + 1;
    }
    put_escape(byte, line, at)
}

/// Whether a byte is shown as it is.
#[inline(always)]
#[tactic(auto, unfolding(ctf_class::specs::Escapes::shown_byte))]
fn is_plain(byte: u8) -> bool
    ensures { IsTrue result → shown_byte byte ≡ byte ∷ [] }
{
    (byte >= 0x20) & (byte != b'"') & (byte != b'\\') & (byte != 0x7F)
}

/// Writes a byte that mostly is escaped.
#[tactic(auto, unfolding(ctf_class::specs::Escapes::shown_byte))]
fn put_escape(byte: u8, line: &mut [u8], at: usize) -> usize
    requires { at + 4 ≤ length line.old }
    ensures text { take result line.new ≡ take at line.old ++ shown_byte byte }
    ensures near { result ≤ at + 4 }
{
    match byte {
        b'"' => put_pair(b'"', line, at),
        b'\\' => put_pair(b'\\', line, at),
        b'\n' => put_pair(b'n', line, at),
        b'\t' => put_pair(b't', line, at),
        b'\r' => put_pair(b'r', line, at),
        0..=0x1F | 0x7F => put_number(byte, line, at),
        _ => {
            line[at] = byte;
            at + 1
        }
    }
}

/// Writes `\` and a letter.
fn put_pair(letter: u8, line: &mut [u8], at: usize) -> usize
    requires { at + 4 ≤ length line.old }
    ensures text { take result line.new ≡ take at line.old ++ (92 ∷ letter ∷ []) }
    ensures near { result ≤ at + 4 }
{
    line[at] = b'\\';
    line[at + 1] = letter;
    at + 2
}

/// Writes `\x` and the two digits of a byte.
fn put_number(byte: u8, line: &mut [u8], at: usize) -> usize
    requires { at + 4 ≤ length line.old }
    ensures text { take result line.new ≡ take at line.old ++
        (92 ∷ 120 ∷ hex_digit (byte / 16) ∷ hex_digit (byte % 16) ∷ []) }
    ensures near { result ≤ at + 4 }
{
    line[at] = b'\\';
    line[at + 1] = b'x';
    line[at + 2] = hex_digit(byte / 16);
    line[at + 3] = hex_digit(byte % 16);
    at + 4
}
