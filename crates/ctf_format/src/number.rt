//! Numbers of integer classes.

ghost use Rattle.std.specs.Prelude.{◌≡◌, ◌+◌, ◌++◌, ◌≤◌, pos, length, take};
ghost use Rattle.ctf_format.specs.Numbers.{number_text};

use crate::binary::put_bits;
use crate::decimal::{put_signed, put_signed_short, put_unsigned};
use crate::hexadecimal::put_hexadecimal;
use crate::octal::put_octal;
use crate::pattern::pattern;
use ctf_class::{Base, Integer, LONGEST_NUMBER};

/// Writes an unsigned number of an integer class at an index of a line that has room for it, and gives the
/// index after it. Mostly its base is ten.
#[inline(always)]
pub fn put_unsigned_number(integer: &Integer, number: u64, line: &mut [u8], at: usize) -> usize
    requires room { at + LONGEST_NUMBER ≤ length line.old }
    ensures text { take result line.new ≡ take at line.old ++ number_text integer.now (pos number) }
    ensures near { result ≤ at + LONGEST_NUMBER }
{
    match integer.base {
        Base::Decimal => put_unsigned(number, line, at),
        _ => put_number(integer, i128::from(number), line, at),
    }
}

/// Writes a signed number in the base of its integer.
#[inline(always)]
pub fn put_signed_number(integer: &Integer, number: i64, line: &mut [u8], at: usize) -> usize
    requires room { at + LONGEST_NUMBER ≤ length line.old }
    ensures text { take result line.new ≡ take at line.old ++ number_text integer.now number }
    ensures near { result ≤ at + LONGEST_NUMBER }
{
    match integer.base {
        Base::Decimal => put_signed_short(number, line, at),
        _ => put_number(integer, i128::from(number), line, at),
    }
}

/// Writes a number of 128 bits in the base of its integer.
#[inline(never)]
#[tactic(auto, using(crate::proofs::DigitsLemmas::length_hexadecimal, crate::proofs::DigitsLemmas::length_octal))]
pub fn put_number(integer: &Integer, number: i128, line: &mut [u8], at: usize) -> usize
    requires room { at + LONGEST_NUMBER ≤ length line.old }
    ensures text { take result line.new ≡ take at line.old ++ number_text integer.now number }
    ensures near { result ≤ at + LONGEST_NUMBER }
{
    match integer.base {
        Base::Decimal => put_signed(number, line, at),
        Base::Hexadecimal => {
            line[at] = b'0';
            line[at + 1] = b'x';
            put_hexadecimal(pattern(integer.size, number), line, at + 2)
        }
        Base::Octal => {
            line[at] = b'0';
            put_octal(pattern(integer.size, number), line, at + 1)
        }
        Base::Binary => {
            line[at] = b'0';
            line[at + 1] = b'b';
            let bits = pattern(integer.size, number);
            put_bits(bits, integer.size.bits(), line, at + 2)
        }
    }
}
