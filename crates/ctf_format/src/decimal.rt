//! Numbers in decimal.

ghost use Rattle.std.specs.Prelude.{◌≡◌, ℕ, List, ◌+◌, ◌/◌, ◌++◌, ◌<◌, ◌≤◌, length, take};
ghost use Rattle.std.specs.Fmt.{decimal, signed_decimal};
ghost use Rattle.std.specs.Int.{w32, to_le_bytes, leading_zeros};
ghost use Rattle.ctf_digits.specs.Fours.{four};

use ctf_digits::{few_digits, two_digits};
use itoa::Buffer;

/// Writes a number in decimal at an index of a line that has room for 20 bytes there, and gives the index
/// after it. Mostly it has up to four digits.
#[inline(always)]
pub fn put_unsigned(number: u64, line: &mut [u8], at: usize) -> usize
    requires room { at + 20 ≤ length line.old }
    ensures text { take result line.new ≡ take at line.old ++ decimal number }
    ensures end { result ≡ at + length (decimal number) }
    ensures near { result ≤ at + 20 }
{
    if number < 10_000 {
        return put_up_to_4_digits(number as u32, line, at);
    }
    put_5_digits_or_more(number, line, at)
}

/// Writes a number of more than four digits. Mostly it has up to eight.
#[inline(never)]
fn put_5_digits_or_more(number: u64, line: &mut [u8], at: usize) -> usize
    requires many { 10_000 ≤ number }
    requires room { at + 20 ≤ length line.old }
    ensures text { take result line.new ≡ take at line.old ++ decimal number }
    ensures end { result ≡ at + length (decimal number) }
    ensures near { result ≤ at + 20 }
{
    if number < 100_000_000 {
        return put_5_to_8_digits(number as u32, line, at);
    }
    put_9_digits_or_more(number, line, at)
}

/// Writes a number of five to eight digits: up to four, and then four.
#[inline(always)]
#[tactic(auto, using(crate::proofs::DecimalLemmas::length_four))]
fn put_5_to_8_digits(number: u32, line: &mut [u8], at: usize) -> usize
    requires many { 10_000 ≤ number }
    requires few { number < 100_000_000 }
    requires room { at + 8 ≤ length line.old }
    ensures text { take result line.new ≡ take at line.old ++ decimal number }
    ensures end { result ≡ at + length (decimal number) }
    ensures near { result ≤ at + 8 }
{
    let end = put_up_to_4_digits(number / 10_000, line, at);
    put_word(four_digits(number % 10_000), line, end);
    end + 4
}

/// Writes a number of more than eight digits.
#[tactic(auto, using(crate::proofs::DecimalLemmas::length_eight))]
#[inline(never)]
fn put_9_digits_or_more(number: u64, line: &mut [u8], at: usize) -> usize
    requires many { 100_000_000 ≤ number }
    requires room { at + 20 ≤ length line.old }
    ensures text { take result line.new ≡ take at line.old ++ decimal number }
    ensures end { result ≡ at + length (decimal number) }
    ensures near { result ≤ at + 20 }
{
    let end = put_up_to_12_digits(number / 100_000_000, line, at);
    put_last_8_digits(number, line, end)
}

/// Writes a number of up to twelve digits.
#[tactic(auto, using(crate::proofs::DecimalLemmas::length_eight))]
#[inline(always)]
fn put_up_to_12_digits(number: u64, line: &mut [u8], at: usize) -> usize
    requires few { number < 1_000_000_000_000 }
    requires room { at + 12 ≤ length line.old }
    ensures text { take result line.new ≡ take at line.old ++ decimal number }
    ensures end { result ≡ at + length (decimal number) }
    ensures near { result ≤ at + 12 }
{
    if number < 10_000 {
        return put_up_to_4_digits(number as u32, line, at);
    }
    if number < 100_000_000 {
        return put_5_to_8_digits(number as u32, line, at);
    }
    let end = put_up_to_4_digits((number / 100_000_000) as u32, line, at);
    put_last_8_digits(number, line, end)
}

/// Writes the last eight digits of a number after those before them.
#[inline(always)]
fn put_last_8_digits(number: u64, line: &mut [u8], at: usize) -> usize
    requires many { 100_000_000 ≤ number }
    requires room { at + 8 ≤ length line.old }
    ensures text { (before : List ℕ) →
        take at line.old ≡ before ++ decimal (number / 100_000_000) →
        take result line.new ≡ before ++ decimal number }
    ensures end { result ≡ at + 8 }
{
    put_word(four_digits((number / 10_000 % 10_000) as u32), line, at);
    put_word(four_digits((number % 10_000) as u32), line, at + 4);
    at + 8
}

/// Writes a number of up to four digits. They are one word of a table, so that no jump depends on how many there are: a
/// processor foresees that badly.
#[inline(always)]
fn put_up_to_4_digits(number: u32, line: &mut [u8], at: usize) -> usize
    requires few { number < 10_000 }
    requires room { at + 4 ≤ length line.old }
    ensures text { take result line.new ≡ take at line.old ++ decimal number }
    ensures end { result ≡ at + length (decimal number) }
    ensures near { result ≤ at + 4 }
{
    let word = few_digits(number);
    put_word(word, line, at);
    at + 4 - missing_in(word)
}

/// How many of four digits a word does not have: as many zero bytes follow them.
#[inline(always)]
fn missing_in(word: u32) -> usize
    ensures { result ≡ leading_zeros w32 word / 8 }
{
    (word.leading_zeros() / 8) as usize
}

/// Writes the bytes of a word, the lowest first.
#[inline(always)]
fn put_word(word: u32, line: &mut [u8], at: usize)
    requires { at + 4 ≤ length line.old }
    ensures { take (at + 4) line.new ≡ take at line.old ++ to_le_bytes w32 word }
{
    let bytes = word.to_le_bytes();
    line[at] = bytes[0];
    line[at + 1] = bytes[1];
    line[at + 2] = bytes[2];
    line[at + 3] = bytes[3];
}

/// Four digits of a number as they are printed, the first in the lowest byte.
#[inline(always)]
fn four_digits(number: u32) -> u32
    requires { number < 10_000 }
    ensures { result ≡ four number }
{
    u32::from(two_digits(number / 100)) + (u32::from(two_digits(number % 100)) << 16)
}

/// Writes a number of 64 bits that may be negative in a line with room for 21 bytes.
#[inline(always)]
pub fn put_signed_short(number: i64, line: &mut [u8], at: usize) -> usize
    requires room { at + 21 ≤ length line.old }
    ensures text { take result line.new ≡ take at line.old ++ signed_decimal number }
    ensures near { result ≤ at + 21 }
{
    if number >= 0 {
        return put_unsigned(number.unsigned_abs(), line, at);
    }
    line[at] = b'-';
    put_unsigned(number.unsigned_abs(), line, at + 1)
}

/// Writes a number of 128 bits in a line with room for 40 bytes.
pub fn put_signed(number: i128, line: &mut [u8], at: usize) -> usize
    requires room { at + 40 ≤ length line.old }
    ensures text { take result line.new ≡ take at line.old ++ signed_decimal number }
    ensures near { result ≤ at + 40 }
{
    let far = number.unsigned_abs();
    if far > u128::from(u64::MAX) {
        return put_wide(number, line, at);
    }
    if number >= 0 {
        return put_unsigned(far as u64, line, at);
    }
    line[at] = b'-';
    put_unsigned(far as u64, line, at + 1)
}

/// Writes a number of more than 64 bits.
#[cold]
#[inline(never)]
fn put_wide(number: i128, line: &mut [u8], at: usize) -> usize
    requires room { at + 40 ≤ length line.old }
    ensures text { take result line.new ≡ take at line.old ++ signed_decimal number }
    ensures near { result ≤ at + 40 }
{
    let mut buffer = Buffer::new();
    let digits = buffer.format(number).as_bytes();
    let end = at + digits.len();
    line[at..end].copy_from_slice(digits);
    end
}
