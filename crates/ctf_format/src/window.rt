//! Texts, sixteen bytes at once.

ghost use Rattle.std.specs.Prelude.{◌≡◌, ℕ, ◌<◌, ◌+◌, ◌*◌, ◌≤◌, ◌++◌, ◌∷◌, [], Some, false, length, vec_len, take, map, not, position, nat_eq, nat_lt, IfOk, IfSome};
ghost use Rattle.std.specs.Int.{bit_at};
ghost use Rattle.std.specs.List.{All, take_while};
ghost use Rattle.std.specs.Simd.Lanes.{mask_l};
ghost use Rattle.ctf_class.specs.Escapes.{shown_byte};
ghost use Rattle.ctf_class.specs.Names.{label_text};
ghost use Rattle.ctf_format.specs.Put.{IsPut};

use crate::mark::put_bytes;
use crate::room::with_room;
use ctf_decode::zero_in;
use ctf_list::NoMemory;
use std::simd::prelude::*;

/// How many bytes are looked at at once.
const WINDOW: usize = 16;

/// How many bytes are before the first zero byte, if they are fewer than sixteen, each is shown as it is, there are
/// sixteen bytes, and so much room holds as many in quotes. No jump depends on how many they are: a processor foresees
/// that badly.
#[inline(always)]
pub fn count_short(bytes: &[u8], room: usize) -> Option<usize>
    ensures first { IfSome result (λ n. position (λ x. nat_eq x 0) bytes.now ≡ Some n) }
    ensures plain { IfSome result (λ n.
        All (λ byte. shown_byte byte ≡ byte ∷ []) (take n bytes.now)) }
    ensures few { IfSome result (λ n. n < WINDOW) }
    ensures window { IfSome result (λ _. WINDOW ≤ length bytes.now) }
    ensures room { IfSome result (λ _. WINDOW + 2 ≤ room) }
{
    if bytes.len() < WINDOW || room < WINDOW + 2 {
        return None;
    }
    let count = count_plain(bytes);
    if count >= WINDOW || bytes[count] != 0 {
        return None;
    }
    Some(count)
}

/// How many bytes are before the first zero byte, if they are sixteen to thirty-one, each is shown as it is, two
/// windows hold them, and so much room holds two windows in quotes.
#[inline(always)]
pub fn count_longer(bytes: &[u8], room: usize) -> Option<usize>
    ensures first { IfSome result (λ n. position (λ x. nat_eq x 0) bytes.now ≡ Some n) }
    ensures plain { IfSome result (λ n.
        All (λ byte. shown_byte byte ≡ byte ∷ []) (take n bytes.now)) }
    ensures few { IfSome result (λ n. n < 2 * WINDOW) }
    ensures many { IfSome result (λ n. WINDOW ≤ n) }
    ensures window { IfSome result (λ _. 2 * WINDOW ≤ length bytes.now) }
    ensures room { IfSome result (λ _. 2 * WINDOW + 2 ≤ room) }
{
    if bytes.len() < WINDOW || room < WINDOW || count_plain(bytes) < WINDOW {
        return None;
    }
    let rest = count_short(&bytes[WINDOW..], room - WINDOW)?;
    Some(WINDOW + rest)
}

/// How many bytes are before the first zero byte, if each of them is shown as it is, and there are sixteen bytes.
#[inline(always)]
pub fn count_long(bytes: &[u8]) -> Option<usize>
    ensures first { IfSome result (λ n. position (λ x. nat_eq x 0) bytes.now ≡ Some n) }
    ensures plain { IfSome result (λ n.
        All (λ byte. shown_byte byte ≡ byte ∷ []) (take n bytes.now)) }
    ensures within { IfSome result (λ n. n < length bytes.now) }
{
    let count = count_all_plain(bytes);
    if count >= bytes.len() || bytes[count] != 0 {
        return None;
    }
    Some(count)
}

/// How many bytes are before the first zero byte, or in all, if each of them is shown as it is, and there are sixteen.
#[inline(always)]
pub fn count_text(bytes: &[u8]) -> Option<usize>
    ensures shown { let shown = take_while (λ x. not (nat_eq x 0)) bytes.now in
        IfSome result (λ n. take n bytes.now ≡ shown) }
    ensures plain { IfSome result (λ n.
        All (λ byte. shown_byte byte ≡ byte ∷ []) (take n bytes.now)) }
    ensures within { IfSome result (λ n. n ≤ length bytes.now) }
{
    let count = count_all_plain(bytes);
    if count == bytes.len() {
        return Some(count);
    }
    if bytes[count] != 0 {
        return None;
    }
    Some(count)
}

/// How many bytes are before the first one that may be escaped, where there are sixteen bytes or more.
#[inline(always)]
fn count_all_plain(bytes: &[u8]) -> usize
    ensures plain { All (λ byte. shown_byte byte ≡ byte ∷ []) (take result bytes.now) }
    ensures bounded { result ≤ length bytes.now }
{
    let windows = bytes.len() / WINDOW;
    for i in 0..windows {
        let begin = WINDOW * i;
        let count = count_plain(&bytes[begin..]);
        if count < WINDOW {
            return begin + count;
        }
    }
    if windows == 0 {
        return 0;
    }
    let last = bytes.len() - WINDOW;
    last + count_plain(&bytes[last..])
}

/// The index of the first zero byte.
pub fn first_zero(bytes: &[u8]) -> Option<usize>
    ensures first { result ≡ position (λ x. nat_eq x 0) bytes.now }
    ensures within { IfSome result (λ n. n < length bytes.now) }
{
    let begin = count_without_zero(bytes);
    let rest = zero_in(&bytes[begin..])?;
    Some(begin + rest)
}

/// How many bytes the windows before the first zero byte hold.
#[inline(always)]
fn count_without_zero(bytes: &[u8]) -> usize
    ensures none { All (λ x. nat_eq x 0 ≡ false) (take result bytes.now) }
    ensures bounded { result ≤ length bytes.now }
{
    let windows = bytes.len() / WINDOW;
    for i in 0..windows {
        let begin = WINDOW * i;
        if are(u8x16::from_slice(&bytes[begin..begin + WINDOW]), 0) != 0 {
            return begin;
        }
    }
    WINDOW * windows
}

/// How many of sixteen bytes are before the first one that may be escaped.
#[inline(always)]
pub fn count_plain(bytes: &[u8]) -> usize
    requires { WINDOW ≤ length bytes.now }
    ensures plain { All (λ byte. shown_byte byte ≡ byte ∷ []) (take result bytes.now) }
    ensures bounded { result ≤ WINDOW }
{
    let window = u8x16::from_slice(&bytes[..WINDOW]);
    let controls = are_below(window, 0x20) | are(window, 0x7F);
    let escaped = controls | are(window, b'"') | are(window, b'\\');
    lowest(escaped | (1 << WINDOW))
}

/// The place of the lowest bit that is set.
#[inline(always)]
fn lowest(bits: u64) -> usize
    requires { (k : ℕ) × (bit_at bits k ≡ 1) }
    ensures { (k : ℕ) → k < result → bit_at bits k ≡ 0 }
{
    bits.trailing_zeros() as usize
}

/// The bits of the bytes that are below a limit, the first byte's the lowest.
#[inline(always)]
fn are_below(window: u8x16, limit: u8) -> u64
    ensures { result ≡ mask_l (map (λ byte. nat_lt byte limit) window) }
{
    window.simd_lt(u8x16::splat(limit)).to_bitmask()
}

/// The bits of the bytes that are this one, the first byte's the lowest.
#[inline(always)]
fn are(window: u8x16, byte: u8) -> u64
    ensures { result ≡ mask_l (map (λ x. nat_eq x byte) window) }
{
    window.simd_eq(u8x16::splat(byte)).to_bitmask()
}

/// Writes the first of sixteen bytes, which are shown as they are, in quotes at an index of a buffer that has room, and
/// gives the index after them. What is before the index is kept.
#[inline(always)]
pub fn put_short(bytes: &[u8], count: usize, buffer: &mut Vec<u8>, at: usize) -> usize
    requires plain { All (λ byte. shown_byte byte ≡ byte ∷ []) (take count bytes.now) }
    requires few { count ≤ WINDOW }
    requires window { WINDOW ≤ length bytes.now }
    requires room { at + WINDOW + 2 ≤ vec_len buffer.old }
    ensures { let shown = take count bytes.now in
        IsPut buffer.old at (label_text shown) buffer.new result }
{
    let line = buffer.as_mut_slice();
    line[at] = b'"';
    put_window(bytes, count, line, at + 1)
}

/// Writes the first sixteen to thirty-two of some bytes, which are shown as they are, in quotes at an index of a buffer
/// that has room, and gives the index after them. The second of two windows is written over the quote after the first.
#[inline(always)]
pub fn put_longer(bytes: &[u8], count: usize, buffer: &mut Vec<u8>, at: usize) -> usize
    requires plain { All (λ byte. shown_byte byte ≡ byte ∷ []) (take count bytes.now) }
    requires few { count ≤ 2 * WINDOW }
    requires many { WINDOW ≤ count }
    requires window { 2 * WINDOW ≤ length bytes.now }
    requires room { at + 2 * WINDOW + 2 ≤ vec_len buffer.old }
    ensures { let shown = take count bytes.now in
        IsPut buffer.old at (label_text shown) buffer.new result }
{
    let line = buffer.as_mut_slice();
    line[at] = b'"';
    put_window(bytes, WINDOW, line, at + 1);
    let rest = &bytes[WINDOW..];
    put_window(rest, count - WINDOW, line, at + 1 + WINDOW)
}

/// Writes the first of some bytes, which are shown as they are, in quotes at an index of a buffer, and gives the index
/// after them. What is before the index is kept, and the buffer grows where it has no room. At an error it is
/// unspecified.
#[inline(always)]
pub fn put_long(
    bytes: &[u8],
    count: usize,
    buffer: &mut Vec<u8>,
    at: usize,
) -> Result<usize, NoMemory>
    requires plain { All (λ byte. shown_byte byte ≡ byte ∷ []) (take count bytes.now) }
    requires within { count ≤ length bytes.now }
    requires index { at ≤ vec_len buffer.old }
    ensures { let shown = take count bytes.now in
        IfOk result (IsPut buffer.old at (label_text shown) buffer.new) }
{
    with_room(count + 2, buffer, at)?;
    Ok(put_between_quotes(&bytes[..count], buffer, at))
}

/// Writes bytes, which are shown as they are, in quotes at an index of a buffer that has room, and gives the index
/// after them. What is before the index is kept.
#[inline(always)]
fn put_between_quotes(bytes: &[u8], buffer: &mut Vec<u8>, at: usize) -> usize
    requires plain { All (λ byte. shown_byte byte ≡ byte ∷ []) bytes.now }
    requires room { at + length bytes.now + 2 ≤ vec_len buffer.old }
    ensures { IsPut buffer.old at (label_text bytes.now) buffer.new result }
{
    let line = buffer.as_mut_slice();
    line[at] = b'"';
    let end = put_bytes(bytes, line, at + 1);
    line[end] = b'"';
    end + 1
}

/// Writes the first of sixteen bytes and a closing quote in a line that has room. All sixteen are written, and the
/// quote over the first one that is not wanted.
#[inline(always)]
fn put_window(bytes: &[u8], count: usize, line: &mut [u8], at: usize) -> usize
    requires few { count ≤ WINDOW }
    requires window { WINDOW ≤ length bytes.now }
    requires room { at + WINDOW + 1 ≤ length line.old }
    ensures text { take result line.new ≡ take at line.old ++ (take count bytes.now ++ (34 ∷ [])) }
    ensures end { result ≡ at + count + 1 }
{
    u8x16::from_slice(&bytes[..WINDOW]).copy_to_slice(&mut line[at..]);
    line[at + count] = b'"';
    at + count + 1
}
