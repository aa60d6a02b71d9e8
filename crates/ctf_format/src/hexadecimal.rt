//! Numbers in hexadecimal.

ghost use Rattle.std.specs.Prelude.{◌≡◌, ◌+◌, ◌*◌, ◌++◌, ◌<◌, ◌≤◌, true, length, map, take};
ghost use Rattle.std.specs.Fmt.{digits, digit_glyph};
ghost use Rattle.std.specs.Simd.Lanes.{Each1};
ghost use Rattle.ctf_format.specs.Digits.{sixteens};

use std::simd::prelude::*;

/// Writes a number in hexadecimal at an index of a line that has room for 16 digits there, and gives the index
/// after it. Always 16 are made at once, so that no jump depends on how many there are: the bytes after
/// the index are unspecified.
pub fn put_hexadecimal(number: u64, line: &mut [u8], at: usize) -> usize
    requires room { at + 16 ≤ length line.old }
    ensures text { take result line.new ≡ take at line.old ++ digits 16 true number }
    ensures end { result ≡ at + length (digits 16 true number) }
{
    let count = count_digits(number);
    let moved = number << (64 - 4 * count);
    put_lanes(glyphs(values(moved)), line, at);
    at + count as usize
}

/// How many digits a number has in hexadecimal.
#[inline(always)]
fn count_digits(number: u64) -> u32
    ensures value { result ≡ length (digits 16 true number) }
    ensures some { 1 ≤ result }
    ensures few { result ≤ 16 }
{
    number.max(1).ilog2() / 4 + 1
}

/// What each of the 16 digits of a number is worth, the first of them in the first lane. A byte has two, and its
/// first one is in its upper half.
#[inline(always)]
fn values(number: u64) -> u8x16
    ensures { result ≡ sixteens 16 number }
{
    let bytes = u64x1::from_array([number]).to_le_bytes();
    let first = bytes / u8x8::splat(16);
    let second = bytes % u8x8::splat(16);
    first.shuffle(
        second,
        [7, 15, 6, 14, 5, 13, 4, 12, 3, 11, 2, 10, 1, 9, 0, 8],
    )
}

/// The digits of numbers from 0 to 15, in upper case.
#[inline(always)]
fn glyphs(numbers: u8x16) -> u8x16
    requires { Each1 (λ number. number < 16) numbers }
    ensures { result ≡ map (digit_glyph true) numbers }
{
    let past_nine = numbers.simd_gt(u8x16::splat(9));
    let shift = past_nine.select(u8x16::splat(b'A' - 10 - b'0'), u8x16::splat(0));
    numbers + u8x16::splat(b'0') + shift
}

/// Writes the bytes in lanes.
#[inline(always)]
pub fn put_lanes(lanes: u8x16, line: &mut [u8], at: usize)
    requires { at + 16 ≤ length line.old }
    ensures { take (at + 16) line.new ≡ take at line.old ++ lanes }
{
    lanes.copy_to_slice(&mut line[at..]);
}
