//! Digits and bytes that are written into a slice at an index. Each call gives the index after what it wrote.

ghost use Rattle.std.specs.Prelude.{◌≡◌, ◌+◌, ◌<◌, ◌≤◌, [], ◌∷◌, ◌++◌, codes, length, decimal};
ghost use Rattle.ctf_timestamp.specs.Digits.{last_digits, seconds_text};
ghost use Rattle.ctf_timestamp.specs.Putting.{IsPut};

use ctf_digits::{three_digits, two_digits};
use itoa::Buffer;

/// Nanoseconds in a second.
const SECOND: u64 = 1_000_000_000;

/// Writes one byte.
#[inline(always)]
pub(crate) fn put_byte(byte: u8, line: &mut [u8], at: usize) -> usize
    requires { at + 1 ≤ length line.old }
    ensures { IsPut line.old line.new at result (byte ∷ []) }
{
    line[at] = byte;
    at + 1
}

/// Writes two bytes as one slice, which the compiler writes by one store.
#[inline(always)]
pub(crate) fn put_two(first: u8, second: u8, line: &mut [u8], at: usize) -> usize
    requires { at + 2 ≤ length line.old }
    ensures { IsPut line.old line.new at result (first ∷ second ∷ []) }
{
    let bytes = [first, second];
    put_bytes(&bytes, line, at)
}

/// Writes the two digits of a number below 100 by one store.
#[inline(always)]
pub(crate) fn put_pair(pair: u32, line: &mut [u8], at: usize) -> usize
    requires two { pair < 100 }
    requires room { at + 2 ≤ length line.old }
    ensures { IsPut line.old line.new at result (last_digits 2 pair) }
{
    let digits = two_digits(pair).to_le_bytes();
    put_bytes(&digits, line, at)
}

/// Writes the four digits of a number below 10,000.
#[tactic(auto, using(crate::proofs::Groups::digits_long))]
#[inline(always)]
pub(crate) fn put_four(number: u32, line: &mut [u8], at: usize) -> usize
    requires four { number < 10000 }
    requires room { at + 4 ≤ length line.old }
    ensures { IsPut line.old line.new at result (last_digits 4 number) }
{
    let at = put_pair(number / 100, line, at);
    put_pair(number % 100, line, at)
}

/// Writes the eight digits of a number below 100,000,000.
#[tactic(auto, using(crate::proofs::Groups::digits_long))]
#[inline(always)]
fn put_eight(number: u32, line: &mut [u8], at: usize) -> usize
    requires eight { number < 100000000 }
    requires room { at + 8 ≤ length line.old }
    ensures { IsPut line.old line.new at result (last_digits 8 number) }
{
    let at = put_four(number / 10_000, line, at);
    put_four(number % 10_000, line, at)
}

/// Writes the three digits of a number below 1,000 as a word of four bytes, the last of which is to be written over.
#[tactic(auto, using(crate::proofs::Groups::digits_long))]
#[inline(always)]
fn put_three(number: u32, line: &mut [u8], at: usize) -> usize
    requires three { number < 1000 }
    requires room { at + 4 ≤ length line.old }
    ensures { IsPut line.old line.new at result (last_digits 3 number) }
{
    let digits = three_digits(number).to_le_bytes();
    put_bytes(&digits, line, at);
    at + 3
}

/// Writes the nine digits of a number below 1,000,000,000, for which there is room for ten bytes.
#[tactic(auto, using(crate::proofs::Groups::digits_long))]
#[inline(always)]
pub(crate) fn put_nine(number: u32, line: &mut [u8], at: usize) -> usize
    requires nine { number < 1000000000 }
    requires room { at + 10 ≤ length line.old }
    ensures { IsPut line.old line.new at result (last_digits 9 number) }
{
    let at = put_three(number / 1_000_000, line, at);
    let rest = number % 1_000_000;
    let at = put_three(rest / 1000, line, at);
    put_three(rest % 1000, line, at)
}

/// Writes a dot and the nine digits of a number below 1,000,000,000, for which there is room for eleven bytes.
#[tactic(auto, using(crate::proofs::Groups::digits_long))]
#[inline(always)]
pub(crate) fn put_fraction(number: u32, line: &mut [u8], at: usize) -> usize
    requires nine { number < 1000000000 }
    requires room { at + 11 ≤ length line.old }
    ensures { IsPut line.old line.new at result (codes "." ++ last_digits 9 number) }
{
    let at = put_byte(b'.', line, at);
    put_nine(number, line, at)
}

/// Writes the twenty digits of a number.
#[tactic(auto, using(crate::proofs::Groups::digits_long))]
pub(crate) fn put_twenty(number: u64, line: &mut [u8], at: usize) -> usize
    requires { at + 20 ≤ length line.old }
    ensures put { IsPut line.old line.new at result (last_digits 20 number) }
    ensures end { result ≡ at + 20 }
{
    let at = put_four((number / 10_000_000_000_000_000) as u32, line, at);
    let at = put_eight((number / 100_000_000 % 100_000_000) as u32, line, at);
    put_eight((number % 100_000_000) as u32, line, at)
}

/// Writes bytes as they are.
#[inline(always)]
pub(crate) fn put_bytes(bytes: &[u8], line: &mut [u8], at: usize) -> usize
    requires { at + length bytes.now ≤ length line.old }
    ensures { IsPut line.old line.new at result bytes.now }
{
    let end = at + bytes.len();
    line[at..end].copy_from_slice(bytes);
    end
}

/// Writes a number in decimal, at most 20 bytes. Mostly it has one digit.
#[inline(always)]
fn put_decimal(number: u64, line: &mut [u8], at: usize) -> usize
    requires { at + 20 ≤ length line.old }
    ensures put { IsPut line.old line.new at result (decimal number) }
    ensures short { result ≤ at + 20 }
{
    if number < 10 {
        return put_byte(b'0' + number as u8, line, at);
    }
    put_long(number, line, at)
}

/// Writes a number of any size in decimal.
#[inline(never)]
fn put_long(number: u64, line: &mut [u8], at: usize) -> usize
    requires { at + 20 ≤ length line.old }
    ensures put { IsPut line.old line.new at result (decimal number) }
    ensures short { result ≤ at + 20 }
{
    let mut digits = Buffer::new();
    put_bytes(digits.format(number).as_bytes(), line, at)
}

/// Writes nanoseconds as seconds with nine digits after the dot: at most 30 bytes, for which there is room for 31.
#[tactic(auto, using(crate::proofs::Groups::digits_long))]
#[inline(always)]
pub(crate) fn put_seconds(nanos: u64, line: &mut [u8], at: usize) -> usize
    requires { at + 31 ≤ length line.old }
    ensures put { IsPut line.old line.new at result (seconds_text nanos) }
    ensures short { result ≤ at + 30 }
{
    let at = put_decimal(nanos / SECOND, line, at);
    put_fraction((nanos % SECOND) as u32, line, at)
}
