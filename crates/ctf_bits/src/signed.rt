//! Numbers in two's complement.

ghost use Rattle.std.specs.Prelude.{◌≡◌, ◌+◌, ◌-◌, ◌*◌, ◌/◌, ◌^◌, ◌<◌, ◌≤◌, ◌-ℤ◌, ℕ, List, pos, length, SomeIff, IsTrue};
ghost use Rattle.ctf_bits.specs.Number.{number, signed_number};

use crate::number::{Order, uint, uint_within};

/// The number in two's complement of `n` bits, 1 to 64, at the bit `pos` of some bytes: `None` exactly
/// where these bits pass the end of the bytes (CTF 1.8.3, section 4.1.5).
pub fn sint(bytes: &[u8], pos: u64, n: u32, order: Order) -> Option<i64>
    requires some_bits { 1 ≤ n }
    requires in_a_word { n ≤ 64 }
    ensures { SomeIff result (pos + n ≤ 8 * length bytes.now)
        (signed_number order bytes.now pos n) }
{
    let value = uint(bytes, pos, n, order)?;
    Some(twos_complement(value, n))
}

/// The number in two's complement of `n` bits, where the bytes are known to hold them.
#[inline(always)]
pub fn sint_within(bytes: &[u8], pos: u64, n: u32, order: Order) -> i64
    requires some_bits { 1 ≤ n }
    requires in_a_word { n ≤ 64 }
    requires inside { pos + n ≤ 8 * length bytes.now }
    ensures { result ≡ signed_number order bytes.now pos n }
{
    twos_complement(uint_within(bytes, pos, n, order), n)
}

/// Whether `n` bits, 1 to 64, that are this number stand for it in two's complement too: their top bit is not set (CTF
/// 1.8.3, section 4.1.5).
#[inline(always)]
pub fn is_unsigned(value: u64, n: u32) -> bool
    requires some_bits { 1 ≤ n }
    requires in_a_word { n ≤ 64 }
    requires bits { value < 2 ^ n }
    ensures same { IsTrue result → (order : Order) (bytes : List ℕ) (p : ℕ) →
        value ≡ number order bytes p n → signed_number order bytes p n ≡ pos value }
    ensures each { value < 2 ^ (n - 1) → IsTrue result }
{
    value <= u64::MAX >> (64 - n) >> 1
}

/// A number of `n` bits, less 2 ^ n where its top bit is set.
#[inline(always)]
pub(crate) fn twos_complement(value: u64, n: u32) -> i64
    requires some_bits { 1 ≤ n }
    requires in_a_word { n ≤ 64 }
    requires bits { value < 2 ^ n }
    ensures { result ≡ pos value -ℤ pos (value / 2 ^ (n - 1) * 2 ^ n) }
{
    let above = 64 - n;
    (value << above).cast_signed() >> above
}
