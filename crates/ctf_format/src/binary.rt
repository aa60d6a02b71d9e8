//! Numbers in binary.

ghost use Rattle.std.specs.Prelude.{◌≡◌, ◌+◌, ◌++◌, ◌≤◌, length, take};
ghost use Rattle.ctf_format.specs.Numbers.{bit_digits};

use crate::hexadecimal::put_lanes;
use std::simd::prelude::*;

/// How many digits are made at once.
const LANES: u32 = 16;

/// Writes the lowest bits of a number, the highest of them first, at an index of a line that has room for 64 of
/// them, and gives the index after them. Always sixteen are made at once: the bytes after the index are
/// unspecified.
pub fn put_bits(number: u64, count: u32, line: &mut [u8], at: usize) -> usize
    requires some { 1 ≤ count }
    requires few { count ≤ 64 }
    requires room { at + 64 ≤ length line.old }
    ensures text { take result line.new ≡ take at line.old ++ bit_digits count number }
    ensures end { result ≡ at + count }
{
    let moved = number << (64 - count);
    for i in 0..count.div_ceil(LANES) {
        let sixteen = glyphs(moved >> (48 - LANES * i));
        put_lanes(sixteen, line, at + (LANES * i) as usize);
    }
    at + count as usize
}

/// The digits of the lowest sixteen bits of a number, the highest of them in the first lane.
#[inline(always)]
fn glyphs(number: u64) -> u8x16
    ensures { result ≡ bit_digits 16 number }
{
    let bytes = u64x1::from_array([number]).to_le_bytes();
    let each = bytes.shuffle(bytes, [1, 1, 1, 1, 1, 1, 1, 1, 0, 0, 0, 0, 0, 0, 0, 0]);
    let bits = u8x16::from_array([128, 64, 32, 16, 8, 4, 2, 1, 128, 64, 32, 16, 8, 4, 2, 1]);
    let are_set = (each & bits).simd_ne(u8x16::splat(0));
    are_set.select(u8x16::splat(b'1'), u8x16::splat(b'0'))
}
